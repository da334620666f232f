//! Copies of implementations.
#![tactic(auto, using(crate::proofs::Copies::item_steps))]

ghost use Rattle.std.specs.Prelude.{map};
ghost use Rattle.dm_output.specs.Views.{assoc_view, method_param_view, method_view, item_view};

use crate::clone_emitted::CloneEmitted;
use dm_copy::{CloneIn, both};
use dm_expansion::Expansion;
use dm_output::{Assoc, Item, ItemAttr, Method, MethodParam};
use dm_stream::Made;
use std::alloc::Global;

impl<'a> CloneEmitted for Item<'a> {
    ghost use Rattle.dm_output.specs.Output.{ItemTree};

    ghost Shape = { ItemTree };

    ghost shape = { item_view };

    fn clone_in(&self, alloc: Global) -> Made<Self> {
        let front = both(self.attrs.clone_in(alloc), self.params.clone_in(alloc));
        let head = both(self.trait_path.clone_in(alloc), self.ty.clone_in(alloc));
        let members = both(self.assocs.clone_in(alloc), self.methods.clone_in(alloc));
        let rest = both(self.predicates.clone_in(alloc), members);
        let ((attrs, params), ((trait_path, ty), (predicates, (assocs, methods)))) = both(
            front,
            both(head, rest),
        )?;
        Ok(Item {
            attrs,
            params,
            trait_path,
            ty,
            predicates,
            assocs,
            methods,
        })
    }
}

impl CloneEmitted for ItemAttr {
    ghost use Rattle.dm_output.specs.declared.item.ItemAttr as items;

    ghost Shape = { items.ItemAttr };

    ghost shape = { λ a. a };

    fn clone_in(&self, _alloc: Global) -> Made<Self> {
        Ok(*self)
    }
}

impl<'a> CloneEmitted for Assoc<'a> {
    ghost use Rattle.dm_output.specs.Output.{AssocTree};

    ghost Shape = { AssocTree };

    ghost shape = { assoc_view };

    fn clone_in(&self, alloc: Global) -> Made<Self> {
        let (name, ty) = both(self.name.clone_in(alloc), self.ty.clone_in(alloc))?;
        Ok(Assoc { name, ty })
    }
}

impl<'a> CloneEmitted for Method<'a> {
    ghost use Rattle.dm_output.specs.Output.{MethodTree};

    ghost Shape = { MethodTree };

    ghost shape = { method_view };

    fn clone_in(&self, alloc: Global) -> Made<Self> {
        let front = both(self.attrs.clone_in(alloc), self.name.clone_in(alloc));
        let signature = both(self.param.clone_in(alloc), self.output.clone_in(alloc));
        let rest = both(signature, self.body.clone_in(alloc));
        let ((attrs, name), ((param, output), body)) = both(front, rest)?;
        Ok(Method {
            attrs,
            is_const: self.is_const,
            name,
            receiver: self.receiver,
            param,
            output,
            body,
        })
    }
}

impl<'a> CloneEmitted for MethodParam<'a> {
    ghost use Rattle.dm_output.specs.Output.{ParamOfMethod};

    ghost Shape = { ParamOfMethod };

    ghost shape = { method_param_view };

    fn clone_in(&self, alloc: Global) -> Made<Self> {
        let (name, ty) = both(self.name.clone_in(alloc), self.ty.clone_in(alloc))?;
        Ok(MethodParam { name, ty })
    }
}

impl<'a> CloneEmitted for Expansion<'a> {
    ghost use Rattle.std.specs.Prelude.{List, ℕ};
    ghost use Rattle.dm_output.specs.Output.{ItemTree};

    ghost Shape = { List ItemTree × List ℕ };

    ghost shape = { λ x. (map item_view x.items, x.text) };

    fn clone_in(&self, alloc: Global) -> Made<Self> {
        let (items, text) = both(self.items.clone_in(alloc), self.text.clone_in(alloc))?;
        Ok(Expansion { items, text })
    }
}

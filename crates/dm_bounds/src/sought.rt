//! The declared parameters, and the types that stand for the implementation's own.
#![tactic(auto)]

ghost use Rattle.std.specs.Prelude.{◌≡◌, IfOk};
ghost use Rattle.dm_ast.specs.Tree.{ty_view};
ghost use Rattle.dm_ast.specs.Declarations.{declaration_view};
ghost use Rattle.dm_searches.specs.Mentions.{mentions};
ghost use Rattle.dm_bounds.specs.Needed as spec;

use dm_ast::{DeriveInput, Ty};
use dm_copy::both;
use dm_generics::implementor_type;
use dm_generics::types::word_type;
use dm_searches::{GenericsSearch, contains_type_structurally};
use dm_stream::Made;
use std::alloc::Global;

/// What the types of fields are searched for: the declared parameters, `Self`, and the declared type with its parameters. Its types are
/// dropped here, so that what holds it needs to know nothing of how.
pub struct Sought<'s, 'a> {
    search: GenericsSearch<'s, 'a>,
    this: Ty<'a>,
    whole: Ty<'a>,
}

impl Drop for Sought<'_, '_> {
    fn drop(self) {
        let Self {
            search: _search,
            this: _this,
            whole: _whole,
        } = self;
    }
}

impl<'s, 'a> Sought<'s, 'a> {
    /// What is searched for in the fields of a declaration. It fails for want of memory alone.
    pub fn of(alloc: Global, input: &'s DeriveInput<'a>) -> Made<Sought<'s, 'a>>
        ensures { IfOk result (λ s. spec.wanted s ≡ spec.wanted_of (declaration_view input.now)) }
    {
        let search = GenericsSearch::from_generics(alloc, &input.generics)?;
        match both(word_type(alloc, "Self"), implementor_type(alloc, input)) {
            Ok((this, whole)) => Ok(Sought {
                search,
                this,
                whole,
            }),
            Err(error) => Err(error),
        }
    }

    /// Whether a declared parameter is mentioned in the type.
    pub fn mentions(&self, ty: &Ty<'_>) -> bool
        ensures { result ≡ mentions (spec.wanted self.now).parameters (ty_view ty.now) }
    {
        self.search.any_in(ty)
    }

    /// Whether neither `Self` nor the declared type with its parameters stands in the type.
    pub fn is_free(&self, ty: &Ty<'_>) -> bool
        ensures { result ≡ spec.is_free (spec.wanted self.now) (ty_view ty.now) }
    {
        !(contains_type_structurally(ty, &self.this) || contains_type_structurally(ty, &self.whole))
    }
}

//! What a method takes and gives.
#![tactic(auto, using(crate::proofs::MemberSteps::member_steps))]

ghost use Rattle.std.specs.Prelude.{◌≡◌, None, Some, IfOk, option_map};
ghost use Rattle.dm_output.specs.Views.{method_param_view};
ghost use Rattle.dm_reread.specs.Items as plain;
ghost use Rattle.dm_reread.specs.ReadBack.{leaves};
ghost use Rattle.dm_read_places.specs.Prelude.{ty_view, block_view, method_view, next, Reads, ReadsWhole};
ghost use Rattle.dm_read_heads.specs.Members as spec;
ghost use Rattle.dm_read_heads.specs.Signatures.{inputs_view, signature_view, named_view};

use dm_ast::Ty;
use dm_gather::discard;
use dm_input::join::{ended, joined};
use dm_nodes::block::BlockNode;
use dm_nodes::item::MethodNode;
use dm_output::{ItemAttr, Method, MethodParam, Receiver};
use dm_read::token::is_word;
use dm_read::words::is_name;
use dm_read_leaves::ty::ty;
use dm_read_places::front::{Keyword, Sign};
use dm_read_places::place::Place;
use dm_stream::{Delim, Ident, Made, Read, Seq};
use std::alloc::Global;

/// What stands in a method's parentheses: its receiver, its parameter, both or none.
#[derive(Drop)]
pub struct Inputs<'a> {
    pub receiver: Option<Receiver>,
    pub param: Option<MethodParam<'a>>,
}

/// What a method takes, and the type that it gives, if one stands behind `->`. Its drop is a function, so that what holds a signature needs
/// to know nothing of how types are dropped.
pub struct Signature<'a> {
    pub inputs: Inputs<'a>,
    pub output: Option<Ty<'a>>,
}

impl Drop for Signature<'_> {
    fn drop(self) {
        let Self { inputs, output } = self;
        discard(inputs);
        discard(output);
    }
}

impl<'a> Signature<'a> {
    /// The method of this signature with this body.
    pub fn into_method(
        self,
        alloc: Global,
        attrs: Seq<ItemAttr>,
        is_const: bool,
        name: Ident<'a>,
        body: BlockNode<'a>,
    ) -> Made<MethodNode<'a>>
        ensures { IfOk result (λ m. method_view m ≡ spec.method_of attrs is_const name.entry (signature_view self.entry) (block_view body.entry)) }
    {
        let Self { inputs, output } = self;
        let Inputs { receiver, param } = inputs;
        let tree = Method {
            attrs,
            is_const,
            name,
            receiver,
            param,
            output,
            body: body.into_tree(),
        };
        Ok(MethodNode::new(alloc, tree)?)
    }
}

/// A type, to the end.
fn last_type<'a>(place: &mut Place<'_, 'a>) -> Read<Ty<'a>>
    ensures { ReadsWhole ty_view spec.last_type place.old result }
{
    let found = ty(place)?;
    ended(found, place.close())
}

/// `:` and a type, to the end.
fn typed<'a>(place: &mut Place<'_, 'a>) -> Read<Ty<'a>>
    ensures { ReadsWhole ty_view spec.typed place.old result }
{
    place.colon()?;
    last_type(place)
}

/// A name and its type, to the end.
fn param<'a>(place: &mut Place<'_, 'a>) -> Read<MethodParam<'a>>
    ensures { ReadsWhole method_param_view spec.param_at place.old result }
{
    let name = place.declared()?;
    let (name, ty) = joined(name, typed(place))?;
    Ok(MethodParam { name, ty })
}

/// A parameter behind a receiver.
fn with_param<'a>(receiver: Receiver, place: &mut Place<'_, 'a>) -> Read<Inputs<'a>>
    ensures { ReadsWhole inputs_view (spec.with_param receiver) place.old result }
{
    Ok(Inputs {
        receiver: Some(receiver),
        param: Some(param(place)?),
    })
}

/// A comma, and a parameter behind a receiver.
fn behind_comma<'a>(receiver: Receiver, place: &mut Place<'_, 'a>) -> Read<Inputs<'a>>
    ensures { ReadsWhole inputs_view (spec.behind_comma receiver) place.old result }
{
    place.comma()?;
    with_param(receiver, place)
}

/// What stands behind `self`.
fn behind_receiver<'a>(receiver: Receiver, place: &mut Place<'_, 'a>) -> Read<Inputs<'a>>
    ensures { ReadsWhole inputs_view (λ ts. plain.behind_receiver leaves receiver (next ts)) place.old result }
{
    if place.at_end() {
        return Ok(Inputs {
            receiver: Some(receiver),
            param: None,
        });
    }
    behind_comma(receiver, place)
}

/// `self`, and what stands behind it.
fn receiver_first<'a>(receiver: Receiver, place: &mut Place<'_, 'a>) -> Read<Inputs<'a>>
    ensures { ReadsWhole inputs_view (λ ts. plain.self_from leaves receiver (next ts)) place.old result }
{
    let Some(name) = place.name() else {
        return Err(place.refused());
    };
    if !is_word("self", name) {
        return Err(place.refused());
    }
    behind_receiver(receiver, place)
}

/// What stands behind `&`.
fn reference<'a>(place: &mut Place<'_, 'a>) -> Read<Inputs<'a>>
    ensures { ReadsWhole inputs_view (λ ts. plain.ref_input leaves (next ts)) place.old result }
{
    if place.take_keyword(Keyword::Mut) {
        return receiver_first(Receiver::RefMut, place);
    }
    receiver_first(Receiver::Ref, place)
}

/// Whether a name that may be declared comes next.
fn sees_declared(place: &Place<'_, '_>) -> bool
    ensures { result ≡ spec.is_declared (next place.now) }
{
    let mut ahead = Place::new(place.alloc(), place.cursor());
    match ahead.name() {
        Some(name) => is_name(name),
        None => false,
    }
}

/// A parameter without a receiver.
fn only_param<'a>(place: &mut Place<'_, 'a>) -> Read<Inputs<'a>>
    ensures { ReadsWhole inputs_view spec.only_param place.old result }
{
    Ok(Inputs {
        receiver: None,
        param: Some(param(place)?),
    })
}

/// What stands in a method's parentheses.
fn all_inputs<'a>(place: &mut Place<'_, 'a>) -> Read<Inputs<'a>>
    ensures { ReadsWhole inputs_view (λ ts. plain.read_inputs leaves (next ts)) place.old result }
{
    if place.at_end() {
        return Ok(Inputs {
            receiver: None,
            param: None,
        });
    }
    if place.take(Sign::Amp) {
        return reference(place);
    }
    if sees_declared(place) {
        return only_param(place);
    }
    receiver_first(Receiver::Value, place)
}

/// The same in their parentheses.
fn inputs_in_parens<'a>(place: &mut Place<'_, 'a>) -> Read<Inputs<'a>>
    ensures { Reads inputs_view (λ ts. plain.inputs_after leaves (next ts)) place.old result place.new }
{
    let Some(mut inside) = place.group(Delim::Paren) else {
        return Err(place.refused());
    };
    all_inputs(&mut inside)
}

/// `->` and a type, or nothing.
fn output<'a>(place: &mut Place<'_, 'a>) -> Read<Option<Ty<'a>>>
    ensures { Reads (option_map ty_view) (λ ts. plain.output_after leaves ts (next ts)) place.old result place.new }
{
    if !place.take(Sign::Arrow) {
        return Ok(None);
    }
    Ok(Some(ty(place)?))
}

/// Parameters in parentheses, and perhaps a type behind `->`.
fn unnamed_signature<'a>(place: &mut Place<'_, 'a>) -> Read<Signature<'a>>
    ensures { Reads signature_view spec.signature_at place.old result place.new }
{
    let inputs = inputs_in_parens(place)?;
    let (inputs, output) = joined(inputs, output(place))?;
    Ok(Signature { inputs, output })
}

/// A method's name and what it takes and gives. Refused where they don't stand there.
pub fn named_signature<'a>(place: &mut Place<'_, 'a>) -> Read<(Ident<'a>, Signature<'a>)>
    ensures { Reads named_view spec.named_signature place.old result place.new }
{
    let name = place.declared()?;
    joined(name, unnamed_signature(place))
}

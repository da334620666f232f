//! Single tokens, which stand nowhere in a text.
#![tactic(auto, using(crate::proofs::Laying::token_steps))]

ghost use Rattle.std.specs.Prelude.{◌≡◌, IsTrue, OnOk};
ghost use Rattle.dm_layout.specs.Fixed.{is_fixed};
ghost use Rattle.dm_stream.specs.declared.tokens.Delim.TheVariants.{Paren};
ghost use Rattle.dm_ast.specs.TypeTokens as syntax;
ghost use Rattle.dm_output.specs.Tokens as spec;
ghost use Rattle.dm_output.specs.Views.{opaque_view};
ghost use Rattle.dm_print_types.specs.Laying.{lay, begun, done, fix};

use dm_ast::Opaque;
use dm_layout::{Layout, Printed};
use dm_stream::{Delim, Ident, Lifetime, Literal, Spacing, TokenStream};

/// Adds a text of words, puncts and delimiters, which is laid out as it stands. Its groups need not be whole.
#[tactic(auto, using(crate::proofs::Laying::stepped_laid))]
pub fn fixed(out: &mut Layout, text: &str) -> Printed
    requires { IsTrue (is_fixed text.now) }
    ensures { OnOk result (out.new ≡ fix out.old text.now) }
{
    out.fixed(text)
}

/// Adds an identifier that isn't raw.
pub fn word(out: &mut Layout, text: &str) -> Printed
    ensures { OnOk result (out.new ≡ lay out.old (spec.word text.now)) }
{
    out.word(text)
}

/// Adds one where it is there.
pub fn word_if(out: &mut Layout, here: bool, text: &str) -> Printed
    ensures { OnOk result (out.new ≡ lay out.old (syntax.given here (spec.word text.now))) }
{
    if here {
        return word(out, text);
    }
    Ok(())
}

/// Adds an identifier.
pub fn name(out: &mut Layout, ident: &Ident<'_>) -> Printed
    ensures { OnOk result (out.new ≡ lay out.old (syntax.name ident.now)) }
{
    out.ident(ident)
}

/// Adds a lifetime.
pub fn lifetime(out: &mut Layout, lifetime: &Lifetime<'_>) -> Printed
    ensures { OnOk result (out.new ≡ lay out.old (syntax.lifetime lifetime.now)) }
{
    out.lifetime(lifetime)
}

/// Adds a literal.
pub fn literal(out: &mut Layout, literal: &Literal<'_>) -> Printed
    ensures { OnOk result (out.new ≡ lay out.old (syntax.literal literal.now)) }
{
    out.literal(literal)
}

/// Adds a punct that touches nothing behind it.
pub fn punct(out: &mut Layout, ch: char) -> Printed
    ensures { OnOk result (out.new ≡ lay out.old (spec.punct ch)) }
{
    out.punct(ch, Spacing::Alone)
}

/// Adds one where it is there.
pub fn punct_if(out: &mut Layout, here: bool, ch: char) -> Printed
    ensures { OnOk result (out.new ≡ lay out.old (syntax.given here (spec.punct ch))) }
{
    if here {
        return punct(out, ch);
    }
    Ok(())
}

/// Adds two puncts that are read as one, as `==`.
pub fn joint(out: &mut Layout, ch: char, next: char) -> Printed
    ensures { OnOk result (out.new ≡ lay out.old (spec.joint ch next)) }
{
    out.punct(ch, Spacing::Joint)?;
    out.punct(next, Spacing::Alone)
}

/// Adds two where they are there.
pub fn joint_if(out: &mut Layout, here: bool, ch: char, next: char) -> Printed
    ensures { OnOk result (out.new ≡ lay out.old (syntax.given here (spec.joint ch next))) }
{
    if here {
        return joint(out, ch, next);
    }
    Ok(())
}

/// Adds the opening delimiter of a group.
pub fn open(out: &mut Layout, delim: Delim) -> Printed
    ensures { OnOk result (out.new ≡ begun out.old delim) }
{
    out.open(delim)
}

/// Adds the closing delimiter of a group.
pub fn close(out: &mut Layout, delim: Delim) -> Printed
    ensures { OnOk result (out.new ≡ done out.old delim) }
{
    out.close(delim)
}

/// Adds a stream's tokens.
pub fn stream(out: &mut Layout, tokens: &TokenStream<'_>) -> Printed
    ensures { OnOk result (out.new ≡ lay out.old tokens.now.trees) }
{
    out.stream(tokens)
}

/// Adds tokens that are not read, in parentheses.
pub fn opaque(out: &mut Layout, tokens: &Opaque<'_>) -> Printed
    ensures { OnOk result (out.new ≡ lay out.old (spec.enclosed Paren (opaque_view tokens.now))) }
{
    open(out, Delim::Paren)?;
    stream(out, &tokens.tokens)?;
    close(out, Delim::Paren)
}

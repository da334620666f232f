ghost use Rattle.std.specs.Prelude.{◌≡◌, MatchOption};
ghost use Rattle.std.specs.Str.Lines.{strip_carriage_return};
ghost use Rattle.dm_run.specs.Split.{HasLine, IsSplit};

fn without_return(line: &str) -> &str
    ensures { result.now ≡ strip_carriage_return line.now }
{
    match line.strip_suffix('\r') {
        Some(front) => front,
        None => line,
    }
}

/// The trait's name and the declaration: the first line, without one CR at its end, and what stands behind its LF.
pub fn split(bytes: &[u8]) -> Option<(&str, &str)>
    ensures { MatchOption result (¬ (HasLine bytes.now)) (λ x. IsSplit bytes.now x.0.now x.1.now) }
{
    let text = match std::str::from_utf8(bytes) {
        Ok(text) => text,
        Err(_) => return None,
    };
    match text.split_once('\n') {
        Some((line, rest)) => Some((without_return(line), rest)),
        None => None,
    }
}

ghost use Rattle.std.specs.Prelude.{◌≡◌, ◌≤◌, length};
ghost use Rattle.rule_lex.specs.Gaps as gaps;

fn is_blank(b: u8) -> bool
    ensures { result ≡ gaps.is_blank b }
{
    b == b' ' || b == b'\t' || b == b'\r' || b == b'\n'
}

fn begins_comment(text: &[u8]) -> bool
    ensures { result ≡ gaps.begins_comment text.now }
{
    matches!(text, [b'/', b'/', ..])
}

// The text behind the first line feed.
fn after_line(text: &[u8]) -> &[u8]
    ensures gap { gaps.after_gap result.now ≡ gaps.after_comment text.now }
    ensures within { length result.now ≤ length text.now }
{
    let mut rest = text;
    while let Some((first, after)) = rest.split_first() {
        rest = after;
        if *first == b'\n' {
            break;
        }
    }
    rest
}

/// The text behind its blanks and comments.
pub fn after_gap(text: &[u8]) -> &[u8]
    ensures gap { result.now ≡ gaps.after_gap text.now }
    ensures within { length result.now ≤ length text.now }
{
    let mut rest = text;
    while let Some((first, after)) = rest.split_first() {
        if is_blank(*first) {
            rest = after;
        } else if begins_comment(rest) {
            rest = after_line(after);
        } else {
            return rest;
        }
    }
    rest
}

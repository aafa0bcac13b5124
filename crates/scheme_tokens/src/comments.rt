ghost use Rattle.std.specs.Prelude.{◌≡◌, ◌<◌, ◌≤◌, length, IsTrue, MatchOption};
ghost use Rattle.std.specs.List.{prefix_len};
ghost use Rattle.scheme_tokens.specs.Comments.{not_newline, is_closing, is_end, last_after, inside_after, comment_len};

/// How many bytes a line comment has after its `;`.
pub fn line_len(rest: &[u8]) -> usize
    ensures { result ≡ prefix_len not_newline rest.now }
{
    let mut n = 0;
    while n < rest.len() && rest[n] != b'\n' {
        n += 1;
    }
    n
}

fn closes(last: u8, b: u8) -> bool
    ensures { result ≡ is_closing last b }
{
    last == b'|' && b == b'#'
}

fn next_last(last: u8, b: u8) -> u8
    ensures { result ≡ last_after last b }
{
    if closes(last, b) || (last == b'#' && b == b'|') {
        return 0;
    }
    b
}

fn next_inside(last: u8, inside: usize, b: u8) -> usize
    requires room { inside < 18446744073709551615 }
    requires some { IsTrue (is_closing last b) → 0 < inside }
    ensures { result ≡ inside_after last inside b }
{
    if closes(last, b) {
        return inside - 1;
    }
    if last == b'#' && b == b'|' {
        return inside + 1;
    }
    inside
}

fn ends(last: u8, inside: usize, b: u8) -> bool
    ensures { result ≡ is_end last inside b }
{
    closes(last, b) && inside == 0
}

/// How many bytes a block comment has after its `#|`; none where it doesn't end.
pub fn block_len(rest: &[u8]) -> Option<usize>
    ensures value { result ≡ comment_len 0 0 rest.now }
    ensures within { MatchOption result (Unit {0}) (λ n. n ≤ length rest.now) }
{
    let mut last: u8 = 0;
    let mut inside: usize = 0;
    for (i, b) in rest.iter().enumerate() {
        let b = *b;
        if ends(last, inside, b) {
            return Some(i + 1);
        }
        inside = next_inside(last, inside, b);
        last = next_last(last, b);
    }
    None
}

// Comments.

ghost use Rattle.std.specs.Prelude.{◌≡◌, ◌≤◌, IfSome, length};
ghost use Rattle.iec_tokens.specs.Comments as spec;

// How many bytes there are up to the end of a comment, `*)`, and with it.
pub fn comment_length(bytes: &[u8]) -> Option<usize>
    ensures length { result ≡ spec.comment_length bytes.now }
    ensures within { IfSome result (λ n. n ≤ length bytes.now) }
{
    let mut star = false;
    let mut count = 0;
    for byte in bytes {
        count += 1;
        if star && *byte == b')' {
            return Some(count);
        }
        star = *byte == b'*';
    }
    None
}

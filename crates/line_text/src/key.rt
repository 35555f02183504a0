// Words of the form KEY=VALUE.

ghost use Rattle.std.specs.Prelude.{◌≡◌, nat_eq, if◌then◌else◌, Option, None, Some, drop, length};
ghost use Rattle.std.specs.List.{starts_with};
ghost use Rattle.std.specs.Option.{option_map};
ghost use Rattle.line_text.specs.Keys as spec;
ghost use Rattle.line_text.specs.Texts.{texts};

/// The value of a key at the front of the words, and the words after it. Where the front word is
/// not the key's, all the words are left. The key ends in `=`.
#[tactic(auto, unfolding(crate::specs::Keys::value_at))]
pub fn value_at<'a, 'b>(key: &[u8], words: &'b [&'a [u8]]) -> (Option<&'a [u8]>, &'b [&'a [u8]])
    ensures { (option_map (λ v. v.now) result.0, texts result.1.now) ≡
        spec.value_at key.now (texts words.now) }
{
    let [word, behind @ ..] = words else {
        return (None, words);
    };
    match text_behind(key, word) {
        Some(text) => (Some(text), behind),
        None => (None, words),
    }
}

// What stands after a key in a word that begins with it.
fn text_behind<'a>(key: &[u8], word: &'a [u8]) -> Option<&'a [u8]>
    ensures { option_map (λ v. v.now) result ≡ (if starts_with nat_eq word.now key.now
        then Some (drop (length key.now) word.now) else None) }
{
    if word.len() < key.len() {
        return None;
    }
    for (place, byte) in key.iter().enumerate() {
        if word[place] != *byte {
            return None;
        }
    }
    Some(&word[key.len()..])
}

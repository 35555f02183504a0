// The bytes and the words of a line.

ghost use Rattle.std.specs.Prelude.{◌≡◌, ◌==◌, ◌<◌, ◌∷◌, ◌++◌, [], IfOk, IfSome, IsTrue, OnOk, length};
ghost use Rattle.std.specs.List.{filter, position};
ghost use Rattle.line_text.specs.Spelling.{is_plain};
ghost use Rattle.line_text.specs.Texts as shown;
ghost use Rattle.line_text.specs.Texts.{texts};
ghost use Rattle.line_text.specs.Words as spec;

use memchr::memchr;
use std::alloc::{AllocError, Global};

/// Whether a word is this text.
#[tactic(auto, unfolding(crate::specs::Texts::says))]
pub fn says(word: &[u8], text: &[u8]) -> bool
    ensures { result ≡ shown.says word.now text.now }
{
    word == text
}

/// Where the first of these bytes stands.
pub(crate) fn place_of(byte: u8, bytes: &[u8]) -> Option<usize>
    ensures place { result ≡ position (λ b. b == byte) bytes.now }
    ensures within { IfSome result (λ place. place < length bytes.now) }
{
    memchr(byte, bytes)
}

/// Whether a line has no bytes but tab, CR and those from space to `~`.
#[tactic(auto, unfolding(crate::specs::Words::is_clean), using(std::proofs::lemmas::List::Folds::list_all_more))]
pub fn is_clean(line: &[u8]) -> bool
    ensures { result ≡ spec.is_clean line.now }
{
    let mut clean = true;
    for byte in line {
        clean = clean & is_line_byte(*byte);
    }
    clean
}

/// The words of a line: what stands between blanks, up to a `#`.
pub fn words_of(alloc: Global, line: &[u8]) -> Result<Vec<&[u8]>, AllocError>
    ensures { IfOk result (λ v. texts v.items ≡ spec.words_of line.now) }
{
    let mut words = Vec::new(alloc);
    read_words(line, &mut words)?;
    Ok(words)
}

/// Puts the words of a line in place of those before, and says whether the line is clean.
pub(crate) fn read_words<'a>(line: &'a [u8], words: &mut Vec<&'a [u8]>) -> Result<bool, AllocError>
    ensures clean { IfOk result (λ clean. clean ≡ spec.is_clean line.now) }
    ensures words { OnOk result (texts words.new.items ≡ spec.words_of line.now) }
{
    words.clear();
    let mut clean = true;
    let mut start = 0;
    let mut end = line.len();
    for (place, byte) in line.iter().enumerate() {
        if is_common(*byte) {
            continue;
        }
        if is_blank(*byte) {
            push_part(&line[start..place], words)?;
            start = place + 1;
        } else if is_comment(*byte) {
            end = place;
            break;
        } else {
            clean = clean & is_line_byte(*byte);
        }
    }
    push_part(&line[start..end], words)?;
    Ok(clean & is_clean(&line[end..]))
}

// Puts a part of a line after the words, where it has a byte.
fn push_part<'a>(part: &'a [u8], words: &mut Vec<&'a [u8]>) -> Result<(), AllocError>
    ensures { OnOk result (texts words.new.items ≡
        texts words.old.items ++ filter spec.is_word (part.now ∷ [])) }
{
    if !part.is_empty() {
        words.push(part)?;
    }
    Ok(())
}

// Whether a byte is one of those that stand in words most often, from `$` to `~`.
fn is_common(b: u8) -> bool
    ensures line { IsTrue result → IsTrue (spec.is_line_byte b) }
    ensures plain { IsTrue result → IsTrue (is_plain b) }
{
    b'$' <= b && b <= b'~'
}

// Whether a line may have the byte.
fn is_line_byte(b: u8) -> bool
    ensures { result ≡ spec.is_line_byte b }
{
    b == b'\t' || b == b'\r' || (b' ' <= b && b <= b'~')
}

// Whether a byte stands between words.
fn is_blank(b: u8) -> bool
    ensures { result ≡ spec.is_blank b }
{
    b == b' ' || b == b'\t' || b == b'\r'
}

// Whether a byte begins a comment.
fn is_comment(b: u8) -> bool
    ensures { result ≡ spec.is_comment b }
{
    b == b'#'
}

// The marks that part the keys and values of a text, counted before it is read as TOML.

ghost use Rattle.std.specs.Prelude.{◌≡◌, ◌≤◌, ◌+◌, ◌<◌, ◌^◌};
ghost use Rattle.machine_config.specs.Marks as spec;

/// The most of `[`, `{`, `=` and `.` in a text.
const MOST_MARKS: u32 = 1_000;

/// The most commas in a text.
const MOST_COMMAS: u32 = 100_000;

/// Where a byte of a text stands. What carries a byte is in a string with this quote.
#[derive(Clone, Copy)]
pub enum Spot {
    /// Outside strings and comments.
    Plain,
    Comment,
    /// After the first quote of a string.
    Opened(u8),
    /// After two quotes: the string is empty, or a third follows.
    OpenedTwice(u8),
    /// In a string of one line.
    Inside(u8),
    /// After a backslash there.
    Escaped(u8),
    /// In a string of three quotes.
    Long(u8),
    /// After a backslash there.
    LongEscaped(u8),
    /// After a quote there.
    Closing(u8),
    /// After two.
    ClosingTwice(u8),
    /// After three: up to two of these are still the string's.
    Closed(u8),
    /// After four.
    ClosedTwice(u8),
}

/// A text as far as it was gone over: where its next byte stands and in which line, and its marks
/// and commas so far.
#[derive(Clone, Copy)]
pub struct Scan {
    pub spot: Spot,
    pub line: u64,
    pub marks: u32,
    pub commas: u32,
}

// The spot after a byte outside strings and comments.
fn plain_after(byte: u8) -> Spot
    ensures { result ≡ spec.plain_after byte }
{
    if byte == b'#' {
        Spot::Comment
    } else if byte == b'"' || byte == b'\'' {
        Spot::Opened(byte)
    } else {
        Spot::Plain
    }
}

// The spot after a byte in a comment.
fn comment_after(byte: u8) -> Spot
    ensures { result ≡ spec.comment_after byte }
{
    if byte == b'\n' {
        Spot::Plain
    } else {
        Spot::Comment
    }
}

// The spot after a byte in a string of one line.
fn short_after(quote: u8, byte: u8) -> Spot
    ensures { result ≡ spec.short_after quote byte }
{
    if byte == quote || byte == b'\n' {
        Spot::Plain
    } else if byte == b'\\' && quote == b'"' {
        Spot::Escaped(quote)
    } else {
        Spot::Inside(quote)
    }
}

// The spot after a byte in a string of three quotes.
fn long_after(quote: u8, byte: u8) -> Spot
    ensures { result ≡ spec.long_after quote byte }
{
    if byte == quote {
        Spot::Closing(quote)
    } else if byte == b'\\' && quote == b'"' {
        Spot::LongEscaped(quote)
    } else {
        Spot::Long(quote)
    }
}

// The spot after a byte.
#[tactic(auto, unfolding(crate::specs::Marks::spot_after))]
fn spot_after(spot: Spot, byte: u8) -> Spot
    ensures { result ≡ spec.spot_after spot byte }
{
    match spot {
        Spot::Plain => plain_after(byte),
        Spot::Comment => comment_after(byte),
        Spot::Opened(quote) => {
            if byte == quote {
                Spot::OpenedTwice(quote)
            } else {
                short_after(quote, byte)
            }
        }
        Spot::OpenedTwice(quote) => {
            if byte == quote {
                Spot::Long(quote)
            } else {
                plain_after(byte)
            }
        }
        Spot::Inside(quote) => short_after(quote, byte),
        Spot::Escaped(quote) => Spot::Inside(quote),
        Spot::Long(quote) => long_after(quote, byte),
        Spot::LongEscaped(quote) => Spot::Long(quote),
        Spot::Closing(quote) => {
            if byte == quote {
                Spot::ClosingTwice(quote)
            } else {
                long_after(quote, byte)
            }
        }
        Spot::ClosingTwice(quote) => {
            if byte == quote {
                Spot::Closed(quote)
            } else {
                long_after(quote, byte)
            }
        }
        Spot::Closed(quote) => {
            if byte == quote {
                Spot::ClosedTwice(quote)
            } else {
                plain_after(byte)
            }
        }
        Spot::ClosedTwice(quote) => {
            if byte == quote {
                Spot::Plain
            } else {
                plain_after(byte)
            }
        }
    }
}

// Whether a byte after which this spot comes stands outside strings and comments.
fn is_outside(spot: Spot) -> bool
    ensures { result ≡ spec.is_outside spot }
{
    matches!(spot, Spot::Plain)
}

// Whether a byte is a mark.
fn is_mark(byte: u8) -> bool
    ensures { result ≡ spec.is_mark byte }
{
    byte == b'[' || byte == b'{' || byte == b'=' || byte == b'.'
}

// A count, and one more where this holds.
fn count_after(count: u32, holds: bool) -> u32
    requires { count ≤ 100000 }
    ensures { result ≡ spec.count_after holds count }
{
    if holds { count + 1 } else { count }
}

// The line after a byte.
fn line_after(line: u64, byte: u8) -> u64
    requires { line + 1 < 2 ^ 64 }
    ensures after { result ≡ spec.line_after line byte }
    ensures near { result ≤ line + 1 }
{
    if byte == b'\n' { line + 1 } else { line }
}

// What was gone over, and a byte more.
#[tactic(auto, unfolding(crate::specs::Marks::scan_after))]
fn scan_after(scan: Scan, byte: u8) -> Scan
    requires fits { scan.line + 1 < 2 ^ 64 }
    requires marks { scan.marks ≤ 1000 }
    requires commas { scan.commas ≤ 100000 }
    ensures after { result ≡ spec.scan_after scan byte }
    ensures near { result.line ≤ scan.line + 1 }
{
    let spot = spot_after(scan.spot, byte);
    let outside = is_outside(spot);
    Scan {
        spot,
        line: line_after(scan.line, byte),
        marks: count_after(scan.marks, outside && is_mark(byte)),
        commas: count_after(scan.commas, outside && byte == b','),
    }
}

// Whether there are more marks or commas than a configuration may have.
fn is_crowded(scan: Scan) -> bool
    ensures { result ≡ spec.is_crowded scan }
{
    MOST_MARKS < scan.marks || MOST_COMMAS < scan.commas
}

/// The line of the first mark or comma of a text that is one too many.
#[tactic(auto, unfolding(crate::specs::Marks::crowded_line))]
pub fn crowded_line(text: &[u8]) -> Option<u64>
    ensures { result ≡ spec.crowded_line text.now }
{
    let mut scan = Scan {
        spot: Spot::Plain,
        line: 1,
        marks: 0,
        commas: 0,
    };
    for byte in text {
        let line = scan.line;
        scan = scan_after(scan, *byte);
        if is_crowded(scan) {
            return Some(line);
        }
    }
    None
}

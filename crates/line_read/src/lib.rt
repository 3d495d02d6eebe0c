// Hexadecimal lines: a reader that takes bytes as they come.
#![tactic(auto)]

ghost use Rattle.std.specs.Prelude.{◌≡◌, false, ◌≤◌, length};
ghost use Rattle.line_hex.specs.Hex.{Values};
ghost use Rattle.line_read.specs.Machine.{line_of, push, is_frame};
ghost use Rattle.line_read.specs.Lent.{Took};

// What is read of the line that is not closed yet. Its whole words are in the lent frame buffer.
#[derive(Clone, Copy)]
pub struct Reader {
    pub digits: usize,
    pub word: u64,
    pub spoilt: bool,
}

pub fn fresh() -> Reader
    ensures { (result.digits ≡ 0) × (result.word ≡ 0) × (result.spoilt ≡ false) }
{
    Reader {
        digits: 0,
        word: 0,
        spoilt: false,
    }
}

// A closed line that is a frame: of digits / 8 words.
pub fn is_framed(r: Reader) -> bool
    ensures { result ≡ is_frame r.digits r.spoilt }
{
    !r.spoilt && r.digits % 8 == 0
}

// One byte that is not 0A.
pub fn push_byte(r: Reader, frame: &mut [i32], b: u8) -> Reader
    requires { (r.digits ≤ 32768) × (4096 ≤ length frame.old) }
    ensures most { result.digits ≤ 32768 }
    ensures moved { line_of result frame.new ≡ push (line_of r frame.old) b }
{
    let digits = r.digits;
    if r.spoilt {
        return r;
    }
    let v = line_hex::value(usize::from(b));
    if 15 < v || digits == 32768 {
        return Reader { spoilt: true, ..r };
    }
    let w = r.word % 268435456 * 16 + v;
    if digits % 8 == 7 {
        let k = digits / 8;
        frame[k] = line_hex::signed_of(w);
        return Reader {
            digits: digits + 1,
            word: 0,
            ..r
        };
    }
    Reader {
        digits: digits + 1,
        word: w,
        ..r
    }
}

#[derive(Clone, Copy)]
pub struct Taken {
    pub from: usize,
    pub reader: Reader,
}

// As many whole words as come next; of a spoilt line, which no byte mends, all that is left of it.
pub fn take_words(
    values: &[u64; 256],
    part: &[u8],
    from: usize,
    r: Reader,
    frame: &mut [i32],
) -> Taken
    requires { (from ≤ length part.now) × (r.digits ≤ 32768) × (4096 ≤ length frame.old) × Values values.now }
    ensures { Took part.now from result.from (line_of r frame.old) (line_of result.reader frame.new) }
{
    let digits = r.digits;
    if r.spoilt {
        return Taken {
            from: text::line_end(part, from),
            reader: r,
        };
    }
    if r.word != 0 || digits % 8 != 0 {
        return Taken { from, reader: r };
    }
    let mut i = from;
    for k in digits / 8..4096 {
        if part.len() - i < 8 {
            break;
        }
        let w = line_hex::eight(values, part, i);
        if 4294967295 < w {
            break;
        }
        frame[k] = line_hex::signed_of(w);
        i += 8;
    }
    Taken {
        from: i,
        reader: Reader {
            digits: digits + (i - from),
            ..r
        },
    }
}

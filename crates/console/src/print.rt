// An answer as text in a lent buffer.
ghost use Rattle.std.specs.Prelude.{◌+◌, ◌*◌, ◌%◌, ◌<◌, ◌≤◌, ◌≡◌, [], ◌∷◌, length};
ghost use Rattle.console.specs.Text.{decimal, hex_digit, hex_byte, hex_bytes};
ghost use Rattle.console.specs.AnswerText.{field_text, type_text, first_line, line_at, lines_of, records_in, printed};
ghost use Rattle.console.specs.Buffer.{Filled};
ghost use Rattle.console.specs.Inside.Wrote.{Wrote};

use ty::{byte_at, id_at};

const BLANK: u8 = b' ';

const LINE_BREAK: u8 = b'\n';

// Where the text goes: each `put_` method writes what fits from `at` on, and leaves `at` behind it. A buffer with a place, since there is no heap and text that
// does not fit is cut.
#[derive(Drop)]
struct Writer<'a> {
    out: &'a mut [u8],
    at: usize,
}

impl Writer<'_> {
    fn put_byte(&mut self, b: u8)
        ensures { Wrote self.old self.new (b ∷ []) }
    {
        if self.at < self.out.len() {
            self.out[self.at] = b;
            self.at += 1;
        }
    }

    // By hand: `write!` to a writer that cuts answers a Result that is never an error, which each call would have to open.
    fn put_decimal(&mut self, n: usize)
        ensures { Wrote self.old self.new (decimal n) }
    {
        if n < 10 {
            return self.put_byte(b'0' + n as u8);
        }
        self.put_decimal(n / 10);
        self.put_byte(b'0' + (n % 10) as u8);
    }

    fn put_hex(&mut self, b: u8)
        ensures { Wrote self.old self.new (hex_byte b) }
    {
        self.put_byte(hex_digit(b / 16));
        self.put_byte(hex_digit(b % 16));
    }

    // A type in hex, and a dash for none.
    fn put_type(&mut self, ty: &[u8])
        ensures { Wrote self.old self.new (type_text ty.now) }
    {
        if ty.is_empty() {
            return self.put_byte(b'-');
        }
        for &b in ty {
            self.put_hex(b);
        }
    }

    // A number and the byte that ends its field.
    fn put_field(&mut self, n: usize, end: u8)
        ensures { Wrote self.old self.new (field_text n end) }
    {
        self.put_decimal(n);
        self.put_byte(end);
    }

    fn put_first_line(&mut self, number: u8, pass: u8, ty: &[u8], count: usize)
        ensures { Wrote self.old self.new (first_line number pass ty.now count) }
    {
        self.put_field(number as usize, BLANK);
        self.put_field(pass as usize, BLANK);
        self.put_field(ty.len(), BLANK);
        self.put_type(ty);
        self.put_byte(BLANK);
        self.put_field(count, LINE_BREAK);
    }

    // The line of a diagnostic's record.
    fn put_line(&mut self, diagnostic: &[u8])
        ensures { Wrote self.old self.new (line_at diagnostic.now 0) }
    {
        self.put_field(byte_at(diagnostic, 0) as usize, BLANK);
        self.put_field(id_at(diagnostic, 1) as usize, BLANK);
        self.put_field(id_at(diagnostic, 3) as usize, LINE_BREAK);
    }

    // The lines of the first `count` records, or of those that are whole.
    fn put_lines(&mut self, diagnostics: &[u8], count: usize)
        ensures { Wrote self.old self.new (lines_of diagnostics.now (records_in (length diagnostics.now) count)) }
    {
        for diagnostic in diagnostics.chunks_exact(5).take(count) {
            self.put_line(diagnostic);
        }
    }
}

// By hand, as in put_decimal; `char::from_digit` answers an Option of a char, to be opened and made a byte.
#[tactic(auto, unfolding(crate::specs::Text::hex_digit, ty::specs::Choose::choose))]
fn hex_digit(d: u8) -> u8
    requires { d < 16 }
    ensures { result ≡ hex_digit d }
{
    if d < 10 { b'0' + d } else { b'a' + (d - 10) }
}

// Puts what is printed for an answer at the front of `out`, as much of it as fits, and zeros
// behind it; answers how many bytes of `out` it takes. The answer's fields are those of docs/FORMAT.md.
pub fn print_answer(
    number: u8,
    pass: u8,
    ty: &[u8],
    count: usize,
    diagnostics: &[u8],
    out: &mut [u8],
) -> usize
    ensures { Filled out.old out.new result (printed number pass ty.now count diagnostics.now) }
{
    out.fill(0);
    let mut text = Writer { out, at: 0 };
    text.put_first_line(number, pass, ty, count);
    text.put_lines(diagnostics, count);
    text.at
}

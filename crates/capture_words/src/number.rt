// Numbers as a listing has them.
ghost use Rattle.std.specs.Prelude.{◌≡◌, ◌%◌, ◌<◌, length, drop};
ghost use Rattle.bench_words.specs.Say.{Said, hex_digit_ascii, decimal_text};
ghost use Rattle.capture_words.specs.Texts.{marked_text, counted_text, six_digits, hex_digits};

use bench_words::say::append;
use wire_read::after;

// Puts a mark and a number at the end of a text; gives back where the mark stands. The divisor is a constant, which is cheap
// beside a division by a variable. The loop goes by what is left of the number: a `for` over places would have to break at that too.
fn spell(mark: u8, n: u64, text: &mut [u8]) -> usize
    requires { length text.old ≡ 21 }
    ensures upper_bound { result < 21 }
    ensures text_after { drop result text.new ≡ marked_text mark n }
{
    let mut rest = n;
    let mut at = 20;
    while 9 < rest {
        text[at] = b'0' + (rest % 10) as u8;
        rest /= 10;
        at -= 1;
    }
    text[at] = b'0' + rest as u8;
    at -= 1;
    text[at] = mark;
    at
}

// Puts a mark and a number.
pub(crate) fn marked(out: &mut [u8], said: usize, mark: u8, n: u64) -> usize
    ensures { Said out.old said (marked_text mark n) result out.new }
{
    let mut text = [0u8; 21];
    let at = spell(mark, n, &mut text);
    append(out, said, after(&text, at))
}

// Puts a number.
pub(crate) fn digits(out: &mut [u8], said: usize, n: u64) -> usize
    ensures { Said out.old said (decimal_text n) result out.new }
{
    let mut text = [0u8; 21];
    let at = spell(b' ', n, &mut text);
    append(out, said, after(&text, at + 1))
}

// Puts a text, a space and a number.
pub(crate) fn counted(out: &mut [u8], said: usize, text: &[u8], n: u64) -> usize
    ensures { Said out.old said (counted_text text.now n) result out.new }
{
    let said = append(out, said, text);
    marked(out, said, b' ', n)
}

// The last decimal digit of a number.
fn decimal_digit(n: u32) -> u8
    ensures { result ≡ hex_digit_ascii (n % 10) }
{
    b'0' + (n % 10) as u8
}

// Puts a number with zeros in front, up to six digits.
pub(crate) fn six_digits(out: &mut [u8], said: usize, n: u32) -> usize
    ensures { Said out.old said (six_digits n) result out.new }
{
    if n < 1000000 {
        append(
            out,
            said,
            &[
                decimal_digit(n / 100000),
                decimal_digit(n / 10000),
                decimal_digit(n / 1000),
                decimal_digit(n / 100),
                decimal_digit(n / 10),
                decimal_digit(n),
            ],
        )
    } else {
        digits(out, said, n as u64)
    }
}

// The last hex digit of a number.
fn hex_digit(n: u32) -> u8
    ensures { result ≡ hex_digit_ascii (n % 16) }
{
    let digit = (n % 16) as u8;
    if digit < 10 {
        b'0' + digit
    } else {
        b'a' + (digit - 10)
    }
}

// Puts a number in hex, eight digits.
pub(crate) fn hex_digits(out: &mut [u8], said: usize, n: u32) -> usize
    ensures { Said out.old said (hex_digits n) result out.new }
{
    append(
        out,
        said,
        &[
            hex_digit(n / 268435456),
            hex_digit(n / 16777216),
            hex_digit(n / 1048576),
            hex_digit(n / 65536),
            hex_digit(n / 4096),
            hex_digit(n / 256),
            hex_digit(n / 16),
            hex_digit(n),
        ],
    )
}

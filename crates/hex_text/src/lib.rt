// Bytes in hexadecimal, written into a lent buffer. Each function writes one piece of text, as those of the crate
// `text` do, and has their contract: the piece has room, and then it stands there.
#![tactic(auto)]

ghost use Rattle.std.specs.Prelude.{◌≡◌};
ghost use Rattle.text.specs.Page.{Fits, Adds};
ghost use Rattle.hex_text.specs.Hex.{hex_digit, hex_byte, hex_bytes, bytes_line};

use text::Page;

// The last hexadecimal digit of a byte.
fn hex_digit(byte: u8) -> u8
    ensures { result ≡ hex_digit byte }
{
    let d = byte % 16;
    if d < 10 { b'0' + d } else { b'a' + (d - 10) }
}

// A space and the byte's two digits.
fn put_hex(page: &mut Page, byte: u8)
    requires { Fits page.old (hex_byte byte) }
    ensures { Adds page.old (hex_byte byte) page.new }
{
    page.put(b' ');
    page.put(hex_digit(byte / 16));
    page.put(hex_digit(byte));
}

fn put_bytes(page: &mut Page, bytes: &[u8])
    requires { Fits page.old (hex_bytes bytes.now) }
    ensures { Adds page.old (hex_bytes bytes.now) page.new }
{
    for byte in bytes {
        put_hex(page, *byte);
    }
}

// One line of bytes behind a label. The room it asks for is shown by its callers: `stored`, and the program
// `dispatch_runs`.
pub fn put_line(page: &mut Page, label: &[u8], bytes: &[u8])
    requires { Fits page.old (bytes_line label.now bytes.now) }
    ensures { Adds page.old (bytes_line label.now bytes.now) page.new }
{
    page.put_text(label);
    put_bytes(page, bytes);
    page.put(b'\n');
}

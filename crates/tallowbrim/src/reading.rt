ghost use Rattle.std.specs.Prelude.{◌≡◌};
ghost use Rattle.der.specs.Der.{is_element, is_name};
ghost use Rattle.exports_words.specs.Given.{given};
ghost use Rattle.identity.specs.Identity.{identity_code};
ghost use Rattle.message_chain.specs.Message.{message, message_answer};
ghost use Rattle.port4500.specs.Port.{datagram, datagram_answer};
ghost use Rattle.exports_reading.specs.Names.{lawful_code};
ghost use Rattle.exports_reading.specs.Payloads.{payload_answer};

// What a datagram is: 1 a keepalive; 2 a key exchange, with start and length of its message; 3 an ESP packet, with its length.
#[unsafe(no_mangle)]
pub extern "C" fn tallowbrim_datagram(s: &[u8], out: &mut [u64; 3]) -> u32
    ensures { given 3 (datagram_answer (datagram s.now)) out.old ≡ (result, out.new) }
{
    exports_reading::tallowbrim_datagram(s, out)
}

// Reads a message: its exchange, and how many payloads it has.
#[unsafe(no_mangle)]
pub extern "C" fn tallowbrim_message(m: &[u8], out: &mut [u64; 2]) -> u32
    ensures { given 2 (message_answer (message m.now)) out.old ≡ (result, out.new) }
{
    exports_reading::tallowbrim_message(m, out)
}

// A payload of a message, counted from 0: its type, where it begins, how many bytes it has.
#[unsafe(no_mangle)]
pub extern "C" fn tallowbrim_payload(m: &[u8], place: u8, out: &mut [u64; 3]) -> u32
    ensures { given 3 (payload_answer place m.now) out.old ≡ (result, out.new) }
{
    exports_reading::tallowbrim_payload(m, place, out)
}

// Whether the body of an identification payload is lawful in an exchange: 0, or 18.
#[unsafe(no_mangle)]
pub extern "C" fn tallowbrim_identity(exchange: u8, s: &[u8]) -> u32
    ensures { result ≡ identity_code exchange s.now }
{
    exports_reading::tallowbrim_identity(exchange, s)
}

// Whether bytes are one name: 0, or 18.
#[unsafe(no_mangle)]
pub extern "C" fn tallowbrim_name(s: &[u8]) -> u32
    ensures { result ≡ lawful_code (is_name s.now) }
{
    exports_reading::tallowbrim_name(s)
}

// Whether bytes are one DER element: 0, or 18.
#[unsafe(no_mangle)]
pub extern "C" fn tallowbrim_element(s: &[u8]) -> u32
    ensures { result ≡ lawful_code (is_element s.now) }
{
    exports_reading::tallowbrim_element(s)
}

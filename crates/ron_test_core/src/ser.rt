//! In how many puts a text is written.
ghost use Rattle.std.specs.Bool.{⊤};

use ron_base_device::output::Output;
use ron_ser::lines::write_times;
use ron_ser::quoted::{write_byte_string, write_string};

/// An output that counts its puts.
#[derive(Drop)]
struct Puts(usize);

impl Output for Puts {
    ghost puts = { λ _ _ _. ⊤ };

    fn put(&mut self, _piece: &str) {
        self.0 = self.0.saturating_add(1);
    }
}

// The quotes and one run.
#[test]
fn runs(rt: HostRuntime) {
    let mut plain = Puts(0);
    write_string(&mut plain, "abc\u{e9}", true);
    assert!(rt; plain.0 == 3);
    let mut bytes = Puts(0);
    write_byte_string(&mut bytes, b"abcd", true);
    assert!(rt; bytes.0 == 3);
}

// Sixteen levels of four spaces in each.
#[test]
fn indentations(rt: HostRuntime) {
    let mut one = Puts(0);
    write_times(&mut one, "    ", 16);
    assert!(rt; one.0 == 1);
    let mut two = Puts(0);
    write_times(&mut two, "    ", 17);
    assert!(rt; two.0 == 2);
}

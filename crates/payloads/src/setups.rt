// The payload of settings: the mask, and a value for each field that it has.
ghost use Rattle.std.specs.Prelude.{◌≡◌, ◌+◌, ◌<◌, ◌≤◌, ◌++◌, length};
ghost use Rattle.settings.specs.Masks.{masked};
ghost use Rattle.payloads.specs.Setups.{field_bytes, Splits, settings_layout, settings_size, settings_in, settings_parsed};
ghost use Rattle.payloads.specs.Masking.{settings_short, settings_sized, settings_again, settings_exact};

use crate::payload::Payload;
use big_endian::{BigEndian, split};
use digits::Bytes;
use settings::Settings;

// A field and the bytes after it: its value where the mask has the field, and else none and all bytes.
fn split_field(mask: u8, field: u32, bytes: &[u8]) -> Option<(Option<u16>, &[u8])>
    requires { field < 4 }
    ensures { Splits (masked mask field) bytes.now result }
{
    if (mask >> field) % 2 == 1 {
        let (value, rest) = split(bytes)?;
        Some((Some(value), rest))
    } else {
        Some((None, bytes))
    }
}

// Appends the bytes of a field, where there is room for them.
fn append_field(field: Option<u16>, out: &mut Bytes)
    requires { length out.old + length (field_bytes field) ≤ 32 }
    ensures { out.new ≡ out.old ++ field_bytes field }
{
    if let Some(value) = field {
        out.append(&value.to_bytes());
    }
}

// The settings of a mask whose values the bytes begin with.
fn settings_in(mask: u8, bytes: &[u8]) -> Option<Settings>
    ensures { result ≡ settings_in mask bytes.now }
{
    if mask > 0x0f {
        return None;
    }
    let (batch, rest) = split_field(mask, 0, bytes)?;
    let (nozzle, rest) = split_field(mask, 1, rest)?;
    let (plate, rest) = split_field(mask, 2, rest)?;
    let (profile, _) = split_field(mask, 3, rest)?;
    Some(Settings::from([batch, nozzle, plate, profile]))
}

impl Payload for Settings {
    type Form = Settings;

    ghost entered = { λ settings. settings };

    ghost layout = { settings_layout };

    ghost size = { settings_size };

    ghost parsed = { settings_parsed };

    ghost short = { λ p. settings_short p };

    ghost sized = { λ p rest. settings_sized p rest };

    ghost again = { λ p rest. settings_again p rest };

    ghost exact = { λ bs p u is. settings_exact bs p u is };

    fn effect(form: Settings) -> Settings {
        form
    }

    // The mask, and two bytes for each one bit among its low four.
    fn size_of(start: &[u8]) -> usize {
        match start {
            [] => 1,
            [mask, ..] => 1 + 2 * (*mask & 0x0f).count_ones() as usize,
        }
    }

    fn parse(bytes: &[u8]) -> Option<Settings> {
        let (mask, rest) = bytes.split_first()?;
        settings_in(*mask, rest)
    }

    fn append(form: Settings, out: &mut Bytes) {
        out.push(form.mask());
        for field in form.fields() {
            append_field(field, out);
        }
    }
}

// The fields of a set-up and of settings, and settings as a mask and values.
ghost use Rattle.std.specs.Prelude.{◌≡◌, ◌<◌, ◌/◌, ◌%◌, ◌^◌, ◌==◌};
ghost use Rattle.settings.specs.Masks.{masked, mask_of, values_of, proper, chosen, settings_of};
ghost use Rattle.settings.specs.Overwriting.{fields_of};

use super::{Settings, Setup};
use effects::Effect;

impl Setup {
    pub fn new(batch: u16, nozzle: u16, plate: u16, profile: u16) -> Setup
        ensures { (result.batch ≡ batch) × (result.nozzle ≡ nozzle) × (result.plate ≡ plate) × (result.profile ≡ profile) }
    {
        Setup {
            batch,
            nozzle,
            plate,
            profile,
        }
    }

    // Fields 0 to 3, in order.
    pub fn fields(self) -> (u16, u16, u16, u16)
        ensures { result ≡ (self.batch, self.nozzle, self.plate, self.profile) }
    {
        (self.batch, self.nozzle, self.plate, self.profile)
    }
}

impl Settings {
    // The settings of a mask, in which 2^i stands for field i, and values, where a value that is not masked is 0.
    pub fn new(mask: u8, values: Setup) -> Option<Settings>
        ensures { result ≡ settings_of mask values }
    {
        if proper(mask, values) {
            Some(chosen(mask, values))
        } else {
            None
        }
    }

    // Fields 0 to 3, in order: the new value of each that has one.
    pub fn fields(self) -> [Option<u16>; 4]
        ensures { result ≡ fields_of self }
    {
        [self.batch, self.nozzle, self.plate, self.profile]
    }

    // 2^i for each field i that has a new value.
    pub fn mask(self) -> u8
        ensures { result ≡ mask_of self }
    {
        u8::from(self.batch.is_some())
            + (u8::from(self.nozzle.is_some()) << 1)
            + (u8::from(self.plate.is_some()) << 2)
            + (u8::from(self.profile.is_some()) << 3)
    }

    // The new values, and 0 where there is none.
    pub fn values(self) -> Setup
        ensures { result ≡ values_of self }
    {
        self.act(Settings::start_state())
    }
}

impl From<[Option<u16>; 4]> for Settings {
    ghost from_gives = { λ fields settings. fields_of settings ≡ fields };

    // The settings of fields 0 to 3, in order: the new value of each that has one.
    fn from(fields: [Option<u16>; 4]) -> Settings {
        let [batch, nozzle, plate, profile] = fields;
        Settings {
            batch,
            nozzle,
            plate,
            profile,
        }
    }
}

// Whether a mask has a field.
fn has(mask: u8, field: u32) -> bool
    requires { field < 4 }
    ensures { result ≡ masked mask field }
{
    (mask >> field) % 2 == 1
}

// Whether a mask is 00 to 0f, and values are 0 where it has no field.
fn proper(mask: u8, values: Setup) -> bool
    ensures { result ≡ proper mask values }
{
    mask <= 0x0f
        && (has(mask, 0) || values.batch == 0)
        && (has(mask, 1) || values.nozzle == 0)
        && (has(mask, 2) || values.plate == 0)
        && (has(mask, 3) || values.profile == 0)
}

// The values of the fields that a mask has.
fn chosen(mask: u8, values: Setup) -> Settings
    ensures { result ≡ chosen mask values }
{
    Settings {
        batch: has(mask, 0).then_some(values.batch),
        nozzle: has(mask, 1).then_some(values.nozzle),
        plate: has(mask, 2).then_some(values.plate),
        profile: has(mask, 3).then_some(values.profile),
    }
}

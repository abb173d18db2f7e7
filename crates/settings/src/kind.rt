// What settings do to a set-up, and the words of both.
ghost use Rattle.std.specs.Prelude.{◌≡◌, ℕ, bit_or, refl};
ghost use Rattle.std.proofs.Common.{ap};
ghost use Rattle.words.specs.declared.EffectWords.{EffectWords};
ghost use Rattle.settings.specs.Masks.{mask_of, values_of, settings_of};
ghost use Rattle.settings.specs.Overwriting.{all_zero, overwritten, no_settings, joined, or_in_turn};
ghost use Rattle.settings.specs.Packing.{setup_word, settings_words, settings_read, setup_words};
ghost use Rattle.settings.specs.Sames.{same_setup};
ghost use Rattle.settings.specs.Words.{settings_reads_back, settings_reads_only, setup_apart};

use super::{Settings, Setup};
use effects::Effect;
use words::{EffectWords, StateWords};

// Methods and not `From`, which is no plainer: it would not say which number of a set-up is meant.
impl Setup {
    // The fields one after the other, field 0 highest.
    fn to_word(self) -> u64
        ensures { result ≡ setup_word self }
    {
        (u64::from(self.batch) << 48)
            + (u64::from(self.nozzle) << 32)
            + (u64::from(self.plate) << 16)
            + u64::from(self.profile)
    }

    // The set-up of a word; every word is one's.
    fn from_word(word: u64) -> Setup
        ensures word { setup_word result ≡ word }
        ensures read { (mask : ℕ) (w : EffectWords) → mask ≡ w.first → word ≡ w.second → settings_of mask result ≡ settings_read w }
    {
        Setup {
            batch: (word >> 48) as u16,
            nozzle: ((word >> 32) % 65536) as u16,
            plate: ((word >> 16) % 65536) as u16,
            profile: (word % 65536) as u16,
        }
    }
}

impl Effect for Settings {
    type State = Setup;

    ghost start = { all_zero };

    ghost acts = { overwritten };

    ghost unchanged = { no_settings };

    ghost composed = { joined };

    ghost words = { settings_words };

    ghost reads = { settings_read };

    ghost written = { setup_words };

    ghost rests = { λ s. same_setup _ s refl refl refl refl };

    ghost follows = { λ f g s.
        same_setup _ _
        (or_in_turn f.batch g.batch s.batch)
        (or_in_turn f.nozzle g.nozzle s.nozzle)
        (or_in_turn f.plate g.plate s.plate)
        (or_in_turn f.profile g.profile s.profile) };

    ghost back = { λ f. settings_reads_back f };

    ghost only = { λ w f is. settings_reads_only w f is };

    ghost states = { λ s t is. setup_apart s t (ap (λ w. w.first) is) };

    fn start_state() -> Setup {
        Setup {
            batch: 0,
            nozzle: 0,
            plate: 0,
            profile: 0,
        }
    }

    fn no_change() -> Settings {
        Settings {
            batch: None,
            nozzle: None,
            plate: None,
            profile: None,
        }
    }

    fn act(self, setup: Setup) -> Setup {
        Setup {
            batch: self.batch.unwrap_or(setup.batch),
            nozzle: self.nozzle.unwrap_or(setup.nozzle),
            plate: self.plate.unwrap_or(setup.plate),
            profile: self.profile.unwrap_or(setup.profile),
        }
    }

    // The second's value wins.
    #[tactic(auto, using(crate::specs::Fields::mask_joined, crate::specs::Overwriting::or_in_turn, crate::specs::Sames::same_setup))]
    fn compose(self, second: Settings) -> Settings
        ensures value { result ≡ joined self second }
        ensures mask { mask_of result ≡ bit_or (mask_of self) (mask_of second) }
        ensures values { values_of result ≡ overwritten second (values_of self) }
    {
        Settings {
            batch: second.batch.or(self.batch),
            nozzle: second.nozzle.or(self.nozzle),
            plate: second.plate.or(self.plate),
            profile: second.profile.or(self.profile),
        }
    }

    fn to_words(self) -> EffectWords {
        EffectWords {
            first: u64::from(self.mask()),
            second: self.values().to_word(),
        }
    }

    #[tactic(auto, using(crate::specs::Words::reads_none))]
    fn from_words(stored: EffectWords) -> Option<Settings> {
        let Ok(mask) = u8::try_from(stored.first) else {
            return None;
        };
        Settings::new(mask, Setup::from_word(stored.second))
    }

    fn state_words(setup: Setup) -> StateWords {
        StateWords {
            first: setup.to_word(),
        }
    }
}

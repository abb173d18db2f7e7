// The bytes that stand for commands and kinds, read.
ghost use Rattle.std.specs.Prelude.{◌≡◌};
ghost use Rattle.commands.specs.Codes.{effect_kind, time_kind, code_of, coded};

use crate::command::{Code, EffectKind, TimeKind, UnknownCode};

impl TryFrom<u8> for EffectKind {
    type Error = UnknownCode;

    ghost try_from_gives = { λ byte result. result ≡ coded effect_kind byte };

    fn try_from(byte: u8) -> Result<Self, UnknownCode> {
        match byte {
            0x01 => Ok(EffectKind::Counter),
            0x02 => Ok(EffectKind::Settings),
            0x03 => Ok(EffectKind::Status),
            _ => Err(UnknownCode(byte)),
        }
    }
}

impl TryFrom<u8> for TimeKind {
    type Error = UnknownCode;

    ghost try_from_gives = { λ byte result. result ≡ coded time_kind byte };

    fn try_from(byte: u8) -> Result<Self, UnknownCode> {
        match byte {
            0x01 => Ok(TimeKind::Clock),
            0x02 => Ok(TimeKind::Place),
            _ => Err(UnknownCode(byte)),
        }
    }
}

impl TryFrom<u8> for Code {
    type Error = UnknownCode;

    ghost try_from_gives = { λ byte result. result ≡ coded code_of byte };

    fn try_from(byte: u8) -> Result<Self, UnknownCode> {
        match byte {
            0x01 => Ok(Code::Open),
            0x10 => Ok(Code::Enter),
            0x11 => Ok(Code::Withdraw),
            0x20 => Ok(Code::State),
            0x21 => Ok(Code::Latest),
            0x22 => Ok(Code::Count),
            _ => Err(UnknownCode(byte)),
        }
    }
}

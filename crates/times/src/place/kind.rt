// The order of places, and their words.
ghost use Rattle.std.specs.Prelude.{◌≡◌, Some};
ghost use Rattle.times.specs.Places.{place_upto, place_word, place_read};
ghost use Rattle.times.specs.Orders.{places_tie, places_follow};
ghost use Rattle.times.specs.Words.{place_small, place_back, place_from};
ghost use Rattle.std.proofs.Common.{rules};

use super::Place;
use crate::Time;

impl Place {
    // The place of a word; every word of 64 bits is one's.
    fn of_word(word: u64) -> Place
        ensures { Some result ≡ place_read word }
    {
        let job = (word >> 32) as u32;
        let layer = ((word % (1 << 32)) as u32).cast_signed();
        Place { job, layer }
    }
}

impl Time for Place {
    ghost upto = { place_upto };

    ghost word = { place_word };

    ghost reads = { place_read };

    ghost total = { Prim.search rules };

    ghost transitive = { λ a b c p q. places_follow a b c p q };

    ghost antisymmetric = { λ a b p q. places_tie a b p q };

    ghost small = { λ a. place_small a };

    ghost back = { λ a. place_back a };

    ghost only = { λ w a is. place_from w a is };

    fn not_after(self, other: Place) -> bool {
        self <= other
    }

    fn to_word(self) -> u64 {
        ((self.job as u64) << 32) + self.layer.cast_unsigned() as u64
    }

    fn from_word(stored: u64) -> Option<Place> {
        Some(Place::of_word(stored))
    }
}

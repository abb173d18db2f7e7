// The job and the layer of a place, and the place in words.
ghost use Rattle.std.specs.Prelude.{◌≡◌, Some};
ghost use Rattle.times.specs.Places.{place_text};

use super::Place;
use std::fmt;

impl Place {
    pub fn new(job: u32, layer: i32) -> Place
        ensures { (result.job ≡ job) × (result.layer ≡ layer) }
    {
        Place { job, layer }
    }

    pub fn job(self) -> u32
        ensures { result ≡ self.job }
    {
        self.job
    }

    pub fn layer(self) -> i32
        ensures { result ≡ self.layer }
    {
        self.layer
    }
}

impl fmt::Display for Place {
    ghost output = { λ p. Some (place_text p) };

    fn fmt<W: fmt::Write>(&self, f: &mut fmt::Formatter<W>) -> fmt::Result {
        let job = self.job;
        let layer = self.layer;
        write!(f, "job {job}, layer {layer}")
    }
}

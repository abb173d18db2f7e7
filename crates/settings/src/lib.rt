// The settings, a kind of effect: what a printer is set up with.
#![tactic(auto)]

ghost use Rattle.std.specs.Prelude.{◌<◌, IfSome};
ghost use Rattle.std.proofs.Props.{props};

mod kind;
mod parts;

// What is fitted and chosen: fields 0 to 3, in this order. A field has 16 bits.
#[derive(Clone, Copy)]
pub struct Setup {
    // the batch of material
    batch: u16,
    // the nozzle, or the film of a resin printer
    nozzle: u16,
    plate: u16,
    profile: u16,
    ghost small: { (batch < 65536) × (nozzle < 65536) × (plate < 65536) × (profile < 65536) },
}

// New values for fields of a set-up; a field without one stays as it is.
#[derive(Clone, Copy)]
pub struct Settings {
    batch: Option<u16>,
    nozzle: Option<u16>,
    plate: Option<u16>,
    profile: Option<u16>,
    ghost small: { IfSome batch (λ n. n < 65536) × IfSome nozzle (λ n. n < 65536) × IfSome plate (λ n. n < 65536) × IfSome profile (λ n. n < 65536) } by { Prim.hlevel props },
}

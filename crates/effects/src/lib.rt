// Kinds of effect: what an operation does to the state of a printer.
#![tactic(auto)]

ghost use Rattle.std.specs.Prelude.{◌≡◌, true, Some, fold, Option};
ghost use Rattle.words.specs.declared.EffectWords.{EffectWords};
ghost use Rattle.words.specs.declared.StateWords.{StateWords};

use words::{EffectWords, StateWords};

// A kind of effect. The ghost members say what its effects and states are, the laws are what every kind owes,
// and each method answers what a ghost member says. Words are made and read by methods and not by `From`, which has no such laws.
pub trait Effect: Copy {
    type State: Copy;

    // the state before any operation
    ghost start: { Self.State };

    // the state that an effect makes of a state
    ghost acts: { Self → Self.State → Self.State };

    // the no-change effect
    ghost unchanged: { Self };

    // a first effect composed with a second
    ghost composed: { Self → Self → Self };

    // the words that an effect is kept as
    ghost words: { Self → EffectWords };

    // the effect that words are those of, or none
    ghost reads: { EffectWords → Option Self };

    // the words that a state is written as
    ghost written: { Self.State → StateWords };

    fn start_state() -> Self::State
        ensures { result ≡ start };

    fn no_change() -> Self
        ensures { result ≡ unchanged };

    fn act(self, state: Self::State) -> Self::State
        ensures { result ≡ acts self state };

    fn compose(self, second: Self) -> Self
        ensures { result ≡ composed self second };

    fn to_words(self) -> EffectWords
        ensures { result ≡ words self };

    fn from_words(stored: EffectWords) -> Option<Self>
        ensures { result ≡ reads stored };

    fn state_words(state: Self::State) -> StateWords
        ensures { result ≡ written state };

    // the no-change effect leaves every state as it is
    ghost rests: { (s : Self.State) → acts unchanged s ≡ s };

    // acting with first composed with second is acting with first and then with second
    ghost follows: { (f g : Self) (s : Self.State) → acts (composed f g) s ≡ acts g (acts f s) };

    // an effect's words read back as that effect
    ghost back: { (f : Self) → reads (words f) ≡ Some f };

    // only an effect's words read as it
    ghost only: { (w : EffectWords) (f : Self) → reads w ≡ Some f → words f ≡ w };

    // no two states share their words
    ghost states: { (s t : Self.State) → written s ≡ written t → s ≡ t };
}

// A state carried through effects, first to last.
pub fn carry<E: Effect>(from: E::State, effects: &[E]) -> E::State
    ensures { result ≡ fold (λ s e. E.acts e s) from effects.now }
{
    effects.iter().fold(from, |state, effect| effect.act(state))
}

// All effects composed into one, first to last: acting with it is carrying a state through them.
pub fn compose_all<E: Effect>(effects: &[E]) -> E
    ensures value { result ≡ fold E.composed E.unchanged effects.now }
    ensures carries { (s : E.State) → E.acts result s ≡ fold (λ t e. E.acts e t) s effects.now }
{
    effects
        .iter()
        .fold(E::no_change(), |total, effect| total.compose(*effect))
}

// Whether effects carry a state one after the other to where their composition takes it: they always do.
pub fn composition_agrees<E: Effect>(from: E::State, effects: &[E]) -> bool
    ensures { result ≡ true }
{
    let in_turn = carry(from, effects);
    let at_once = compose_all(effects).act(from);
    E::state_words(in_turn) == E::state_words(at_once)
}

ghost use Rattle.std.specs.Prelude.{◌≡◌, ℕ, ◌<◌, ◌≤◌, length, IsErrAnd};
ghost use Rattle.reading.specs.declared.fault.TextFault.TheVariants.{PastLimit};
ghost use Rattle.reading.specs.Tokens.{origin};
ghost use Rattle.reader.specs.Machine.{Rules, run_by, IsWithin, Advances, Finished};

use lexer::token::{Lexeme, Lexer};
use reading::fault::TextFault;
use reading::token::At;

// What reads a text token by token. It stands for a state of the definition, from which the definition's rules go on.
pub trait Machine {
    type Output;

    type Fault: From<TextFault>;

    // The states of the definition, and the values that it reads.
    ghost State: { Type 0 };

    ghost Value: { Type 0 };

    // How many bytes the text may have.
    ghost most_bytes: { ℕ };

    // The definition: a step for each token, and the end.
    ghost rules: { Self → Rules State Value Self.Fault };

    // That the machine stands for a state at a place.
    ghost stands: { Self → State → ℕ → Type 0 };

    // That an output is a value.
    ghost gives: { Self.Output → Value → Type 0 };

    // `most_bytes` in code: a method, since a constant gets no proof in an impl whose type has a lifetime.
    fn limit(&self) -> usize
        ensures { result ≡ most_bytes };

    // One token.
    fn step(&mut self, lexeme: Lexeme) -> Result<(), Self::Fault>
        ensures kept { rules self.new ≡ rules self.old }
        ensures next { IsWithin most_bytes lexeme.entry → Advances (rules self.old) (stands self.old) lexeme.entry result (stands self.new) };

    // The end of the text.
    fn finish(self, at: At) -> Result<Self::Output, Self::Fault>
        ensures { (s : State) → stands self s at.place → Finished gives result ((rules self).end s at) };
}

// What a machine reads a text as: what its rules give from its state on, unless the text is too long.
pub fn read<M: Machine + Drop>(mut machine: M, text: &[u8]) -> Result<M::Output, M::Fault>
    ensures within { length text.now ≤ M.most_bytes → (s : M.State) → M.stands machine s 0 → Finished M.gives result (run_by (M.rules machine) s text.now) }
    ensures beyond { M.most_bytes < length text.now → IsErrAnd result (M.Fault.from_gives (PastLimit origin)) }
{
    if text.len() > machine.limit() {
        return Err(TextFault::PastLimit(At::ORIGIN).into());
    }
    let mut lexer = Lexer::new(text);
    while let Some(lexeme) = lexer.next_token() {
        machine.step(lexeme)?;
    }
    machine.finish(lexer.at)
}

//! What was heard decides the answer. The laws are functions without a body.

ghost use Rattle.std.specs.Prelude.{◌≡◌, ◌⊎◌, ℕ, ⊤, Ok, Err, List, Option, Some, Result};
ghost use Rattle.vfm_control.specs.declared.frame.Frame.TheVariants.{Staged, Go};
ghost use Rattle.vfm_control.specs.Frame.{frame_at};
ghost use Rattle.vfm_handshake.specs.declared.fault.SettleFault.{SettleFault};
ghost use Rattle.vfm_handshake.specs.declared.fault.GoFault.{GoFault};
ghost use Rattle.vfm_handshake.specs.Control.{Receipt, Heard, SettledBy, TakenBy};

/// To the same bytes there is one answer only; and what a link reports that it received in a call are certain bytes. So each
/// answer comes exactly where its bytes were heard, as far as the link reports them.
pub fn heard_bytes_decide()
    ensures settle { (session : ℕ) (own bytes : List ℕ) (first second : Result ⊤ SettleFault)
        → SettledBy session own bytes first → SettledBy session own bytes second → first ≡ second }
    ensures go { (session : ℕ) (own bytes : List ℕ) (first second : Result ⊤ GoFault)
        → TakenBy session own bytes first → TakenBy session own bytes second → first ≡ second }
    ensures bytes { (r : Receipt) (told first second : List ℕ) → r.before ≡ Some told → Heard r first → Heard r second
        → first ≡ second }
{}

//! Laws of the grammar.
ghost use Rattle.std.specs.Prelude.{◌≡◌, ℕ, ◌++◌, List, Option};
ghost use Rattle.client_protocol.specs.declared.limits.Version.{Version as TheVersion};
ghost use Rattle.client_protocol.specs.Requests.{Request as TheRequest};
ghost use Rattle.client_protocol.specs.Frames.{AreBytes, Held, Frames, Feeds};

/// Bytes have some list of requests, and some rest or fault.
pub fn some_reading()
    ensures { (hello : Option TheVersion) (bytes : List ℕ) → AreBytes bytes
        → (rs : List TheRequest) × (held : Held) × Frames hello bytes rs held }
{}

/// Bytes have one list of requests and one rest, or one fault.
pub fn one_reading()
    ensures { (hello : Option TheVersion) (bytes : List ℕ) (rs ss : List TheRequest) (a b : Held)
        → Frames hello bytes rs a → Frames hello bytes ss b → (rs ≡ ss) × (a ≡ b) }
{}

/// Feeding two pieces one after the other is feeding them as one.
pub fn pieces_go_on()
    ensures { (old mid new : Held) (first later : List ℕ) (rs ss : List TheRequest)
        → Feeds old first rs mid → Feeds mid later ss new → Feeds old (first ++ later) (rs ++ ss) new }
{}

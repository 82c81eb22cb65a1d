// A look's marks, by the states of the entries: written, and compared with marks handed in.

#![tactic(auto)]

ghost use Rattle.std.specs.Prelude.{is_some, cond, ◌≡◌, ◌≤◌, length, ltb};
ghost use Rattle.mesh.specs.Start.{over};
ghost use Rattle.insertion.specs.Inner.{state_marks, marks_allow};
ghost use Rattle.insertion_marks.specs.Given.{given};
ghost use Rattle.insertion.specs.Look.{begins_with};

// 1 for a cell of the cavity, else 0: for a freed entry too.
fn mark_of(state: u8) -> u8
    ensures { result ≡ cond (ltb 0 state) 1 0 }
{
    u8::from(state > 0)
}

// Writes the marks of the first n entries.
pub fn write_marks(n: usize, state: &[u8], marks: &mut [u8])
    requires { (n ≤ length state.now) × (n ≤ length marks.old) }
    ensures { marks.new ≡ over (state_marks n state.now) marks.old }
{
    for c in 0..n {
        marks[c] = mark_of(state[c]);
    }
}

// Whether marks begin with those of the first n entries.
fn marks_match(n: usize, state: &[u8], marks: &[u8]) -> bool
    requires { n ≤ length state.now }
    ensures { result ≡ begins_with (state_marks n state.now) marks.now }
{
    if marks.len() < n {
        return false;
    }
    for c in 0..n {
        if marks[c] != mark_of(state[c]) {
            return false;
        }
    }
    true
}

// Whether no marks are handed in, or these are the marks of the first n entries.
#[tactic(auto, unfolding(insertion::specs::Inner::marks_allow))]
pub fn marks_allow(marks: Option<&[u8]>, n: usize, state: &[u8]) -> bool
    requires { n ≤ length state.now }
    ensures { result ≡ marks_allow (is_some marks.entry) n state.now (given marks.entry) }
{
    match marks {
        Some(marks) => marks_match(n, state, marks),
        None => true,
    }
}

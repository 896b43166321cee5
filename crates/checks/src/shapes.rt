// Refusal 4: the first shape or state row that is not as it must be, states counted on after shapes.
ghost use Rattle.std.specs.Prelude.{◌≡◌, ◌+◌, ◌*◌, ◌≤◌, ◌<◌, leb, get_or, length};
ghost use Rattle.rules.specs.Checks.{shape_or_state_right, shape_right, state_right, value_right};
ghost use Rattle.rules.specs.Limits.{state_width};
ghost use Rattle.items.specs.Items.{shape_for};
ghost use Rattle.syntax.specs.Tables.{given};
ghost use Rattle.checks.specs.Checked.{FirstBad, shape_or_state_row, shapes_and_states};

use items::Shape;
use syntax::{Class, Form, Limits, Tables};

// Whether a form may have this value where there are so many states.
#[tactic(auto, unfolding(rules::specs::Checks::value_right))]
fn value_right(states: usize, form: u32, value: u32) -> bool
    ensures { result ≡ value_right states form value }
{
    match form {
        Form::FIXED | Form::RANGE => value <= Form::MOST,
        Form::GLOB => 1 <= value && value as usize <= states,
        _ => value == 0,
    }
}

// Whether the class, the form and its value may stand together.
#[tactic(auto, unfolding(rules::specs::Checks::shape_right))]
fn shape_right(states: usize, shape: Shape) -> bool
    ensures { result ≡ shape_right states (shape_for shape) }
{
    let fits = match shape.class {
        Class::COMMAND => shape.form <= Form::INFIX_GREEDY,
        // Not left1 and not infix-greedy, the last two forms.
        Class::ENVIRONMENT => shape.form < Form::LEFT1,
        _ => false,
    };
    fits && value_right(states, shape.form, shape.value)
}

// Whether a next state is one of so many, or 0.
fn next_right(states: &[u32], count: usize, at: usize) -> bool
    requires { at < length states.now }
    ensures { result ≡ leb (get_or states.now at 0) count }
{
    states[at] as usize <= count
}

// Whether the three next states of a row are.
#[tactic(auto, unfolding(rules::specs::Checks::state_right))]
fn state_right(states: &[u32], count: usize, row: usize) -> bool
    requires { row * state_width + state_width ≤ length states.now }
    ensures { result ≡ state_right states.now count row }
{
    let at = row * Limits::STATE_WIDTH;
    next_right(states, count, at)
        && next_right(states, count, at + 1)
        && next_right(states, count, at + 2)
}

// A row behind the last shape is a state's.
#[tactic(auto, unfolding(rules::specs::Checks::shape_or_state_right))]
fn shape_or_state_right(tables: &Tables<'_>, row: usize) -> bool
    requires { let t = given tables in row < shapes_and_states t.shapes t.states }
    ensures { result ≡ shape_or_state_right (given tables.entry) row }
{
    let shape_count = tables.shapes.len() / Limits::SHAPE_WIDTH;
    let state_count = tables.states.len() / Limits::STATE_WIDTH;
    if row < shape_count {
        return shape_right(state_count, Shape::row(tables.shapes, row));
    }
    state_right(tables.states, state_count, row - shape_count)
}

// One count runs through both tables.
pub fn first_bad_shape_or_state(tables: &Tables<'_>) -> Option<usize>
    ensures { let t = given tables.entry in
        FirstBad (shape_or_state_row t.shapes t.states) (shapes_and_states t.shapes t.states) result }
{
    let count = tables.shapes.len() / Limits::SHAPE_WIDTH
        + tables.states.len() / Limits::STATE_WIDTH;
    (0..count).find(
        |&row|
            requires { let t = given tables in row < shapes_and_states t.shapes t.states }
        { !shape_or_state_right(tables, row) },
    )
}

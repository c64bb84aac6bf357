// What the program is asked for, by its arguments.
ghost use Rattle.text.specs.Text.{ascii};
ghost use Rattle.cgtool.specs.Inner.Outputs.{AskedFor};

use text::number::read_number;

// A load has a seed and a count.
#[derive(Clone, Copy)]
pub enum Asked {
    Load(u32, u32),
    Page,
    Nodes,
}

// Where the verb is `load`.
fn load_asked(given: usize, first: &[u8], second: &[u8]) -> Option<Asked>
    ensures { AskedFor (record { given = given; verb = ascii "load"; first = first.now; second = second.now }) result }
{
    if given != 4 {
        return None;
    }
    let seed = read_number(first)?;
    let count = read_number(second)?;
    Some(Asked::Load(seed, count))
}

// `given` counts the arguments, the program's name among them; verb, first and second are those after the name. None where the
// arguments are of no command.
pub fn asked_for(given: usize, verb: &[u8], first: &[u8], second: &[u8]) -> Option<Asked>
    ensures { AskedFor (record { given = given; verb = verb.now; first = first.now; second = second.now }) result }
{
    if verb == b"load".as_slice() {
        return load_asked(given, first, second);
    }
    if given != 2 {
        return None;
    }
    if verb == b"page".as_slice() {
        Some(Asked::Page)
    } else if verb == b"nodes".as_slice() {
        Some(Asked::Nodes)
    } else {
        None
    }
}

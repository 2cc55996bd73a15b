// Definitions with random formulas.
use crate::growing::grown;
use sheet_values::NoMemory;
use std::alloc::Global;
use test_state::Random;

// The definition. `~`, a letter and a home stand for a formula.
const TEMPLATE: &[u8] = b"object T {
  state k : number one
  state r : T
  object U {
    state m : number
    state q : T
    formula un : number = ~N2
    formula ut : T = ~T2
  }
  formula tn : number = ~N1
  formula tb : truth = ~B1
  formula ts : text = ~S1
  formula tt : T = ~T1
  formula tu : T.U = ~U1
}
state n : number
formula rn : number = ~N0
formula rb : truth = ~B0
formula rs : text = ~S0
formula rt : T = ~T0
formula ru : T.U = ~U0
";

/// A definition, and its formulas in order.
#[derive(Drop)]
pub struct Draft {
    pub definition: Vec<u8>,
    pub formulas: Vec<Vec<u8>>,
}

/// A definition with random formulas.
pub fn drafted(alloc: Global, grammar: &[u8], random: &mut Random) -> Result<Draft, NoMemory> {
    let mut definition = Vec::new(alloc);
    let mut formulas = Vec::new(alloc);
    for part in TEMPLATE.split(|byte| *byte == b'~') {
        add_part(alloc, &mut definition, &mut formulas, grammar, part, random)?;
    }
    Ok(Draft {
        definition,
        formulas,
    })
}

// A formula, and the text behind it; the first part of the definition has none.
fn add_part(
    alloc: Global,
    definition: &mut Vec<u8>,
    formulas: &mut Vec<Vec<u8>>,
    grammar: &[u8],
    part: &[u8],
    random: &mut Random,
) -> Result<(), NoMemory> {
    match part {
        [letter, home, rest @ ..] if *home == b'0' || *home == b'1' || *home == b'2' => {
            let formula = grown(alloc, grammar, *letter, *home, random)?;
            definition.extend_from_slice(formula.as_slice())?;
            definition.extend_from_slice(rest)?;
            formulas.push(formula)?;
        }
        _ => definition.extend_from_slice(part)?,
    }
    Ok(())
}

use crate::{Model, Random, columns, explore};
use sheet_state::State;
use std::test::Fail;

#[test]
fn random_changes_are_taken_back(rt: HostRuntime) -> Result<(), Fail> {
    let alloc = rt.alloc();
    let columns = columns(alloc)?;
    for (seed, depth) in [(1, 100), (2, 100), (3, 60), (4, 60), (5, 200)] {
        let mut state = State::new(alloc, &columns)?;
        let model = Model::new(alloc);
        let mut random = Random::new(seed);
        let agreed = explore(alloc, &columns, &mut state, &model, &mut random, depth)?;
        assert!(rt; agreed, "from seed {seed}");
    }
    Ok(())
}

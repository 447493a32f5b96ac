use crate::draws::Draws;
use crate::jittered_cells;
use std::test::Fail;

// The first states of the generator from the seed 0, and the draws at them.
const FIRST: [(u32, i32); 8] = [
    (0x3C6E_F35F, -1),
    (0x4750_2932, 0),
    (0xD1CC_F6E9, 0),
    (0xAAF9_5334, 0),
    (0x6252_E503, -1),
    (0x9F2E_C686, -1),
    (0x57FE_6C2D, 1),
    (0xA3D9_5FA8, 0),
];

#[test]
fn the_first_draws_from_the_seed_0(rt: HostRuntime) -> Result<(), Fail> {
    let mut draws = Draws::new(0);
    for (state, draw) in &FIRST {
        assert_eq!(rt; draws.next(), *draw);
        assert_eq!(rt; draws.state, *state);
    }
    Ok(())
}

#[test]
fn the_cells_of_a_grid_of_one(rt: HostRuntime) -> Result<(), Fail> {
    let alloc = rt.alloc();
    let grid = jittered_cells(alloc, 1, 0)?;
    assert_eq!(rt; grid.members.len(), 1);
    let ring = &grid.members[0].polys[0].rings[0];
    let points: Vec<(i32, i32)> = ring.points.iter().map(|p| (p.x, p.y)).collect(alloc)?;
    assert_eq!(rt;
        points.as_slice(),
        [(-1, 0), (64, 0), (63, 63), (1, 64)].as_slice()
    );
    Ok(())
}

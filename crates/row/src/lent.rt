// The words of one office in one room, lent.
ghost use Rattle.std.specs.Prelude.{◌<◌};
ghost use Rattle.row.specs.Row.{Row as IsRow, state_of};

// What is only read.
#[derive(Clone, Copy)]
pub struct Row<'a> {
    pub words: &'a [u32],
    ghost is: { IsRow words.now },
}

// What is changed in place.
#[derive(Drop)]
pub struct RowMut<'a> {
    pub words: &'a mut [u32],
    ghost is: { IsRow words.now },
    ghost office: { (state_of words.now).own < 16 },
}

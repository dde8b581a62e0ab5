// The edges that a search may pass, by the columns of their ends, and which of them are listed.
ghost use Rattle.connection.specs.Columns.{Columns, Vertices};

#[derive(Clone, Copy)]
pub struct Edges<'a> {
    // The vertices at each edge's two ends.
    pub low: &'a [u8],
    pub high: &'a [u8],
    pub listed: &'a [bool],
    // How many edges there are.
    pub count: usize,
    // Their ends are vertices, and the columns have room for them.
    ghost low_below: { Vertices low.now count },
    ghost high_below: { Vertices high.now count },
    ghost columns: { Columns low.now high.now listed.now count },
}

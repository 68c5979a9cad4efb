// The trees of an accepted table, as one value.
ghost use Rattle.records.specs.inner.Reading.{Nodes};

// The trees of an accepted table: the table, and its nodes in the order of the chain.
#[derive(Clone, Copy)]
pub struct Forest<'a> {
    pub table: &'a [u8],
    pub nodes: &'a [u16],
    pub ghost listed: { Nodes table.now nodes.now },
}

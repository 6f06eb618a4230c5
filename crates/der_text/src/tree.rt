/// An element of DER, over the bytes that it was read from.
#[derive(Debug, Drop)]
pub enum Tree<'a> {
    /// A primitive element, with its content.
    Prim { tag: u8, content: &'a [u8] },
    /// A constructed element, with its parts in order.
    Cons { tag: u8, parts: Vec<Tree<'a>> },
}

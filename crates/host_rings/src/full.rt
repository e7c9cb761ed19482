/// A push gives the element back.
#[derive(Clone, Copy, Debug, PartialEq, Eq, Drop)]
pub struct Full<T> {
    pub element: T,
}

/// A member of a list with more to come, the last member, or the end.
#[derive(Debug, Drop)]
pub enum Step<T> {
    More(T),
    Final(T),
    Done,
}

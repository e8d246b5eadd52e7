/// How far an entry is: nobody's, claimed by a seat, or settled as good or as not good.
#[derive(Clone, Copy, Debug, PartialEq, Eq, Drop)]
pub enum Life {
    Waiting,
    Claimed,
    Clean,
    Broken,
}

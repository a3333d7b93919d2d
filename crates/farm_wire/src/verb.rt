/// What a script line asks for, by its member `do`.
#[derive(Clone, Copy)]
pub(crate) enum Verb {
    Open,
    Lease,
    Report,
    Cancel,
    Revert,
    Search,
    Farm,
    Orders,
    Runs,
    List,
}

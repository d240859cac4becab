// Given at opening and taken back only by the session's end. It cannot be dropped, so a program that
// leaves a session without ending it is refused when it is built.
pub struct EndToken(());

impl EndToken {
    pub(crate) fn new() -> EndToken {
        EndToken(())
    }

    pub(crate) fn spend(self) {
        let EndToken(()) = self;
    }
}

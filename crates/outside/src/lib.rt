//! A load from outside: two tasks held in plain fields, one of them with three pieces.
//! It shows that whatever proves its answers goes through the check unchanged.
#![tactic(auto)]

pub mod load;
pub mod pen;

#[cfg(test)]
mod tests {
    use crate::pen::Pen;
    use checking::check as judge;
    use loads::load::Load;
    use model::refusal::Refusal;
    use std::test::Fail;

    fn judged(clock: u64, stroke: u64) -> Result<(), Refusal> {
        judge(&Pen::new(clock, stroke).ok_or(Refusal::Cost)?)
    }

    /// The number of a refusal, if there is one.
    // By number: the table of numbers is tested too.
    fn number(verdict: Result<(), Refusal>) -> Option<u8> {
        Some(verdict.err()?.number())
    }

    #[test]
    fn a_pen_is_checked(rt: HostRuntime) {
        assert_eq!(rt; number(judged(10, 5)), None);
        assert_eq!(rt; number(judged(16, 5)), Some(12));
        assert_eq!(rt; number(judged(21, 5)), Some(3));
    }

    #[test]
    fn a_pen_is_asked(rt: HostRuntime) -> Result<(), Fail> {
        let pen = Pen::new(2, 4).ok_or("no pen")?;
        assert_eq!(rt; pen.count(), 2);
        assert_eq!(rt; pen.round(), Some(60));
        assert_eq!(rt; pen.piece(1, 2), Some((20, 4, 30)));
        assert_eq!(rt; pen.demand(1, 10), Some(4));
        assert_eq!(rt; pen.demand(1, 40), Some(8));
        assert_eq!(rt; pen.demand(1, 50), Some(12));
        assert_eq!(rt; pen.demand(2, 10), None);
        Ok(())
    }
}

// Lost sequence numbers (order 13): rows that the caller lends, one record for each TEID, and numbers offered in the order of arrival.
#![tactic(auto)]

ghost use Rattle.std.specs.Prelude.{◌≡◌, ◌≤◌, ◌<◌, position};
ghost use Rattle.loss.specs.Loss.{arrival_of, distance, counted, started, free, of_teid, used_of, offer};
ghost use Rattle.loss.specs.Answered.{number_of, answer_of};

// A row is free where `seen` is 0.
#[repr(C)]
#[derive(Clone, Copy)]
pub struct Row {
    pub teid: u32,
    pub first: u16,
    pub highest: u16,
    pub seen: u32,
    pub new: u32,
    pub repeated: u32,
    pub late: u32,
    pub lost: u64,
}

const ROWS_MAX: usize = 256;

// Why an offer is refused: no row serves, or the one that does has seen all that it can count.
#[derive(Clone, Copy, Debug, PartialEq, Eq)]
enum Refusal {
    NoRow,
    Full,
}

// The numbers of the answer table.
impl From<Refusal> for u64 {
    ghost from_gives = { λ r n. n ≡ number_of r };

    fn from(refusal: Refusal) -> u64 {
        match refusal {
            Refusal::NoRow => 25,
            Refusal::Full => 26,
        }
    }
}

impl Row {
    // A row that its first number has taken.
    fn started(teid: u32, number: u16) -> Row
        ensures { result ≡ started teid number }
    {
        Row {
            teid,
            first: number,
            highest: number,
            seen: 1,
            new: 1,
            repeated: 0,
            late: 0,
            lost: 0,
        }
    }

    // The row after one more number. The difference mod 65,536 is read as -32,768 to 32,767.
    fn counted(self, number: u16) -> Row
        requires { self.seen < 4294967295 }
        ensures { result ≡ counted self number (arrival_of (distance number self.highest)) }
    {
        let d = number.wrapping_sub(self.highest);
        let distance = d.cast_signed();
        if distance == 0 {
            return Row {
                seen: self.seen + 1,
                repeated: self.repeated.wrapping_add(1),
                ..self
            };
        }
        if distance > 0 {
            return Row {
                highest: number,
                seen: self.seen + 1,
                new: self.new.wrapping_add(1),
                lost: self.lost.wrapping_add(u64::from(d - 1)),
                ..self
            };
        }
        Row {
            seen: self.seen + 1,
            late: self.late.wrapping_add(1),
            ..self
        }
    }

    fn is_free(self) -> bool
        ensures { result ≡ free self }
    {
        self.seen == 0
    }

    // The row is one of the TEID.
    fn is_of(self, teid: u32) -> bool
        ensures { result ≡ of_teid teid self }
    {
        (self.seen != 0) & (self.teid == teid)
    }
}

// How many of n rows are used.
fn used_of(n: usize) -> usize
    ensures value { result ≡ used_of n }
    ensures within { result ≤ n }
{
    n.min(ROWS_MAX)
}

// The lowest row of the TEID.
fn own_place(rows: &[Row], teid: u32) -> Option<usize>
    ensures { result ≡ position (of_teid teid) rows.now }
{
    rows.iter().position(|row| row.is_of(teid))
}

// The lowest free row.
fn free_place(rows: &[Row]) -> Option<usize>
    ensures { result ≡ position free rows.now }
{
    rows.iter().position(|row| row.is_free())
}

// Finds the row that serves, and stores the one updated record.
fn count(rows: &mut [Row], teid: u32, number: u16) -> Result<(), Refusal>
    ensures { (answer_of result, rows.new) ≡ offer rows.old teid number }
{
    let n = used_of(rows.len());
    if let Some(own) = own_place(&rows[..n], teid) {
        let row = rows[own];
        if row.seen == u32::MAX {
            return Err(Refusal::Full);
        }
        rows[own] = row.counted(number);
        return Ok(());
    }
    let place = free_place(&rows[..n]).ok_or(Refusal::NoRow)?;
    rows[place] = Row::started(teid, number);
    Ok(())
}

// Offers one number: 0, or why it is refused.
pub fn offer(rows: &mut [Row], teid: u32, number: u16) -> u64
    ensures { (result, rows.new) ≡ offer rows.old teid number }
{
    match count(rows, teid, number) {
        Ok(()) => 0,
        Err(refusal) => u64::from(refusal),
    }
}

// The parts of a temporal, numbers all.

// Seconds since 1970, and microseconds.
#[derive(Clone, Copy, Debug, PartialEq, Eq)]
pub struct Seconds {
    pub seconds: u32,
    pub micros: u32,
}

// A day of the calendar.
#[derive(Clone, Copy, Debug, PartialEq, Eq)]
pub struct Date {
    pub year: u16,
    pub month: u8,
    pub day: u8,
}

// A date and a time of that day.
#[derive(Clone, Copy, Debug, PartialEq, Eq)]
pub struct Datetime {
    pub year: u16,
    pub month: u8,
    pub day: u8,
    pub hour: u8,
    pub minute: u8,
    pub second: u8,
    pub micros: u32,
}

// A span of time, or a time of day. The Rust splits its hours into days and hours; here they stay hours.
#[derive(Clone, Copy, Debug, PartialEq, Eq)]
pub struct Time {
    pub negative: bool,
    pub hours: u16,
    pub minutes: u8,
    pub seconds: u8,
    pub micros: u32,
}

// A temporal is of one of these sorts.
#[derive(Clone, Copy, Debug, PartialEq, Eq)]
pub enum Temporal {
    Seconds(Seconds),
    Date(Date),
    Datetime(Datetime),
    Time(Time),
}

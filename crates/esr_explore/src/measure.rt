//! The measures of a run.

/// By what the worst run is chosen: the greatest import or distance of a query, or how often lines were blocked.
#[derive(Clone, Copy)]
pub enum Measure {
    Import,
    Distance,
    Blocked,
}

impl Measure {
    /// Returns the measure with a name.
    pub fn of_name(name: &str) -> Option<Measure> {
        match name {
            "import" => Some(Measure::Import),
            "distance" => Some(Measure::Distance),
            "blocked" => Some(Measure::Blocked),
            _ => None,
        }
    }
}

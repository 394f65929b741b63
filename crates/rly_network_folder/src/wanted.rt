/// A file that a station of a network is to have.
#[derive(Drop)]
pub enum Wanted {
    /// A text. It takes the place of another.
    Text {
        /// The path of the file.
        path: String,
        /// Its text.
        text: String,
    },
    /// A key: if it is missing, the one that is elsewhere, or a new one.
    Key {
        /// The path of the file.
        path: String,
        /// The paths at which the same key may be, such as that of the link's other end: the first that is there counts.
        others: Vec<String>,
    },
}

ghost use Rattle.std.specs.Prelude.{◌≡◌, map};
ghost use Rattle.job_words.specs.Table.{served_as};

/// A name of the language of words, and what it stands for.
pub type Row<T> = (&'static str, T);

/// What a word stands for in a table, if it is one of its names.
pub fn served<T: Copy>(table: &[Row<T>], word: &str) -> Option<T>
    ensures { result ≡ served_as (map (λ row. (row.0.now, row.1)) table.now) word.now }
{
    for &(name, meaning) in table {
        if name == word {
            return Some(meaning);
        }
    }
    None
}

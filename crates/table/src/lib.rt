// The working table: rows by rising id, literals in a pool, the stack's ids from its bottom.
#![tactic(auto)]

ghost use Rattle.std.specs.Prelude.{◌≡◌, ◌+◌, ◌<◌, ◌≤◌, length, set};
ghost use Rattle.table.specs.Spelled.{Below, Inside, Located, Rising, clause_part, id_of, length_of, place_of, row_at, size, start_of, witness_part};
ghost use Rattle.table.specs.Spelled.{moved_row, part};

// A row, and where each of its words stands in it. It is an array, and its place a number, since rows are lent entries word for word: a caller in C may hand
// in any bits.
pub type Row = [u32; 5];

pub const ID: usize = 0;

pub const PLACE: usize = 1;

pub const START: usize = 2;

pub const LENGTH: usize = 3;

pub const WITNESS: usize = 4;

// What goes beside the lent tables: V, the highest id accepted, how many clauses may be held, how many rows are in use and of how many of them
// the clause is gone, how many words are held, how many ids are on the stack, and where the pool's unused tail starts.
#[derive(Clone, Copy)]
pub struct Table {
    pub vars: u32,
    pub highest: u32,
    pub entries: u32,
    pub count: u32,
    pub gone: u32,
    pub words: u32,
    pub depth: u32,
    pub top: u32,
}

// ---- readers, of the rows in use: a caller passes &rows[..count]

// A row up to which all ids are less, found in strides of 32 rows.
fn stride(rows: &[Row], id: u32) -> usize
    requires { Rising rows.now }
    ensures { Below rows.now id result }
{
    let n = rows.len();
    let mut k = 0;
    // Stays a `while`: the step is 32 rows, and k is the result where it ends.
    while 32 <= n - k {
        if id <= rows[k + 31][ID] {
            break;
        }
        k += 32;
    }
    k
}

// The row of an id.
pub fn find(rows: &[Row], id: u32) -> Option<usize>
    requires { Rising rows.now }
    ensures { Located rows.now id result }
{
    for k in stride(rows, id)..rows.len() {
        let here = rows[k][ID];
        if here == id {
            return Some(k);
        }
        if id < here {
            return None;
        }
    }
    None
}

pub fn id_at(rows: &[Row], k: usize) -> u32
    requires { k < length rows.now }
    ensures { result ≡ id_of (row_at rows.now k) }
{
    rows[k][ID]
}

pub fn place_at(rows: &[Row], k: usize) -> u32
    requires { k < length rows.now }
    ensures { result ≡ place_of (row_at rows.now k) }
{
    rows[k][PLACE]
}

// ---- a row's words

// As a number that may be summed.
pub fn wide(x: u32) -> usize
    ensures { (result ≡ x) × (result ≤ 4294967295) }
{
    x as usize
}

// How many words of the pool it holds.
pub fn size_of(row: Row) -> usize
    ensures { (result ≡ size row) × (result ≤ 8589934590) }
{
    row[LENGTH] as usize + row[WITNESS] as usize
}

// Where its witness starts, behind its literals.
fn witness_start(row: Row) -> usize
    ensures { result ≡ start_of row + length_of row }
{
    row[START] as usize + row[LENGTH] as usize
}

// A part of the pool, with no copy.
pub fn part_of<'a>(pool: &'a [i32], start: usize, n: usize) -> &'a [i32]
    requires { start + n ≤ length pool.now }
    ensures { result.now ≡ part pool.now start n }
{
    let end = start + n;
    &pool[start..end]
}

// The clause's literals.
pub fn clause_of<'a>(rows: &[Row], pool: &'a [i32], k: usize) -> &'a [i32]
    requires { (k < length rows.now) × Inside (length pool.now) (row_at rows.now k) }
    ensures { result.now ≡ clause_part pool.now (row_at rows.now k) }
{
    let row = rows[k];
    part_of(pool, row[START] as usize, row[LENGTH] as usize)
}

// The witness behind them.
pub fn witness_of<'a>(rows: &[Row], pool: &'a [i32], k: usize) -> &'a [i32]
    requires { (k < length rows.now) × Inside (length pool.now) (row_at rows.now k) }
    ensures { result.now ≡ witness_part pool.now (row_at rows.now k) }
{
    let row = rows[k];
    part_of(pool, witness_start(row), row[WITNESS] as usize)
}

// ---- the one writer of a row that is there already

// The row at k in another place or with other words: it stays the row of the same clause.
pub fn move_row(rows: &mut [Row], k: usize, place: u32, start: u32, n: u32, w: u32)
    requires { k < length rows.old }
    ensures { rows.new ≡ set rows.old k (moved_row (row_at rows.old k) place start n w) }
{
    let row = rows[k];
    rows[k] = [row[ID], place, start, n, w];
}

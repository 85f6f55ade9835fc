ghost use Rattle.std.specs.Prelude.{◌≡◌};
ghost use Rattle.pt_ast.specs.Refusals.{listed};

use pt_value::Ident;

/// What a refusal is about.
#[derive(Clone, Copy)]
pub enum Arg {
    Name(Ident),
    Number(u64),
    /// The primary key, printed `PRIMARY`.
    Primary,
    /// `KEY` without columns, printed `KEY`.
    Key,
}

/// Why a statement is refused: a variant for each cause, with what it is about.
#[derive(Clone, Copy)]
pub enum Refusal {
    /// A lexical fault, or no statement spells the tokens: the piece, from 1.
    Syntax(u64),
    /// More than 64 parentheses are open: the piece.
    TooDeep(u64),
    /// A name has more than 64 bytes: the piece.
    LongName(u64),
    /// The new table is there.
    TableExists(Ident),
    /// The table isn't there.
    NoSuchTable(Ident),
    /// The column isn't there.
    NoSuchColumn(Ident),
    /// A column stands twice, or there is a second primary key.
    DuplicateColumn(Arg),
    /// A value or an expression is of another kind: a column, a table or a row.
    TypeMismatch(Arg),
    /// A number may pass what is computed with: a row or a table.
    TooWide(Arg),
    /// A value doesn't fit: a column, a partition, a table or a row.
    OutOfRange(Arg),
    /// NULL, or no default, for a column that is NOT NULL: the row, from 1.
    NullNotAllowed(u64),
    /// A row has another number of values than there are columns: the row.
    WrongCount(u64),
    /// Another row agrees on a unique key: the row.
    DuplicateKey(u64),
    /// The partition's bound isn't above the one before.
    NotIncreasing(Ident),
    /// The partition's bound is MAXVALUE, and it isn't the last.
    MaxvalueNotLast(Ident),
    /// A value of the partition's list stands before.
    ValueTwice(Ident),
    /// The name of a partition or subpartition stands before, or is made too long.
    DuplicatePartition(Ident),
    /// So many partitions, subpartitions counted, are too many.
    TooManyPartitions(u64),
    /// A unique key lacks a partitioning column, or `KEY` has no columns.
    KeyNeedsColumns(Arg),
    /// The table's partitioning expression isn't an integer or names no column.
    BadFunction(Ident),
    /// The partition's VALUES are missing, or not of the form.
    WrongValues(Ident),
    /// The table would have no partitions, or another number than is written.
    NoPartitions(Ident),
    /// The partition's subpartitions aren't as many as they should be.
    SubpartitionsDiffer(Ident),
    /// No partition takes the row.
    NoPartition(u64),
    /// The partition isn't there.
    UnknownPartition(Ident),
    /// The row isn't in the partitions that are named.
    NotInGivenSet(u64),
    /// The table has no partitions.
    NotPartitioned(Ident),
    /// The table is partitioned by HASH or KEY.
    OnlyRangeList(Ident),
    /// The table is partitioned by RANGE or LIST.
    OnlyHashKey(Ident),
    /// No partition of the table would be left.
    DropAll(Ident),
    /// The table's partitions that are named aren't consecutive.
    NotAdjacent(Ident),
    /// The last bound of the table's partitions would change.
    RangeChanged(Ident),
    /// The table is coalesced by 0.
    CoalesceZero(Ident),
    /// The other table is partitioned.
    OtherIsPartitioned(Ident),
    /// The other table has another structure.
    TablesDiffer(Ident),
    /// The row of the other table belongs elsewhere.
    RowNotInPartition(u64),
    /// The partition has subpartitions.
    UseSubpartition(Ident),
    /// The counter of serial numbers would pass its last: the row.
    SerialsUsed(u64),
}

impl Refusal {
    /// The code, from 1 to 55. It takes no memory.
    pub fn code(&self) -> u8
        ensures { result ≡ (listed self.now).code }
    {
        match self {
            Refusal::Syntax(_) => 1,
            Refusal::TooDeep(_) => 2,
            Refusal::LongName(_) => 3,
            Refusal::TableExists(_) => 10,
            Refusal::NoSuchTable(_) => 11,
            Refusal::NoSuchColumn(_) => 12,
            Refusal::DuplicateColumn(_) => 13,
            Refusal::TypeMismatch(_) => 14,
            Refusal::TooWide(_) => 15,
            Refusal::OutOfRange(_) => 16,
            Refusal::NullNotAllowed(_) => 17,
            Refusal::WrongCount(_) => 18,
            Refusal::DuplicateKey(_) => 19,
            Refusal::NotIncreasing(_) => 30,
            Refusal::MaxvalueNotLast(_) => 31,
            Refusal::ValueTwice(_) => 32,
            Refusal::DuplicatePartition(_) => 33,
            Refusal::TooManyPartitions(_) => 34,
            Refusal::KeyNeedsColumns(_) => 35,
            Refusal::BadFunction(_) => 36,
            Refusal::WrongValues(_) => 37,
            Refusal::NoPartitions(_) => 38,
            Refusal::SubpartitionsDiffer(_) => 39,
            Refusal::NoPartition(_) => 40,
            Refusal::UnknownPartition(_) => 41,
            Refusal::NotInGivenSet(_) => 42,
            Refusal::NotPartitioned(_) => 43,
            Refusal::OnlyRangeList(_) => 44,
            Refusal::OnlyHashKey(_) => 45,
            Refusal::DropAll(_) => 46,
            Refusal::NotAdjacent(_) => 47,
            Refusal::RangeChanged(_) => 48,
            Refusal::CoalesceZero(_) => 49,
            Refusal::OtherIsPartitioned(_) => 51,
            Refusal::TablesDiffer(_) => 52,
            Refusal::RowNotInPartition(_) => 53,
            Refusal::UseSubpartition(_) => 54,
            Refusal::SerialsUsed(_) => 55,
        }
    }

    /// The name: small letters and `_`. It takes no memory.
    pub fn name(&self) -> &'static [u8]
        ensures { result.now ≡ (listed self.now).name }
    {
        match self {
            Refusal::Syntax(_) => b"syntax",
            Refusal::TooDeep(_) => b"too_deep",
            Refusal::LongName(_) => b"long_name",
            Refusal::TableExists(_) => b"table_exists",
            Refusal::NoSuchTable(_) => b"no_such_table",
            Refusal::NoSuchColumn(_) => b"no_such_column",
            Refusal::DuplicateColumn(_) => b"duplicate_column",
            Refusal::TypeMismatch(_) => b"type_mismatch",
            Refusal::TooWide(_) => b"too_wide",
            Refusal::OutOfRange(_) => b"out_of_range",
            Refusal::NullNotAllowed(_) => b"null_not_allowed",
            Refusal::WrongCount(_) => b"wrong_count",
            Refusal::DuplicateKey(_) => b"duplicate_key",
            Refusal::NotIncreasing(_) => b"not_increasing",
            Refusal::MaxvalueNotLast(_) => b"maxvalue_not_last",
            Refusal::ValueTwice(_) => b"value_twice",
            Refusal::DuplicatePartition(_) => b"duplicate_partition",
            Refusal::TooManyPartitions(_) => b"too_many_partitions",
            Refusal::KeyNeedsColumns(_) => b"key_needs_columns",
            Refusal::BadFunction(_) => b"bad_function",
            Refusal::WrongValues(_) => b"wrong_values",
            Refusal::NoPartitions(_) => b"no_partitions",
            Refusal::SubpartitionsDiffer(_) => b"subpartitions_differ",
            Refusal::NoPartition(_) => b"no_partition",
            Refusal::UnknownPartition(_) => b"unknown_partition",
            Refusal::NotInGivenSet(_) => b"not_in_given_set",
            Refusal::NotPartitioned(_) => b"not_partitioned",
            Refusal::OnlyRangeList(_) => b"only_range_list",
            Refusal::OnlyHashKey(_) => b"only_hash_key",
            Refusal::DropAll(_) => b"drop_all",
            Refusal::NotAdjacent(_) => b"not_adjacent",
            Refusal::RangeChanged(_) => b"range_changed",
            Refusal::CoalesceZero(_) => b"coalesce_zero",
            Refusal::OtherIsPartitioned(_) => b"other_is_partitioned",
            Refusal::TablesDiffer(_) => b"tables_differ",
            Refusal::RowNotInPartition(_) => b"row_not_in_partition",
            Refusal::UseSubpartition(_) => b"use_subpartition",
            Refusal::SerialsUsed(_) => b"serials_used",
        }
    }

    /// What the refusal is about. It takes no memory.
    pub fn arg(&self) -> Arg
        ensures { result ≡ (listed self.now).arg }
    {
        match self {
            Refusal::Syntax(number) => Arg::Number(*number),
            Refusal::TooDeep(number) => Arg::Number(*number),
            Refusal::LongName(number) => Arg::Number(*number),
            Refusal::TableExists(name) => Arg::Name(*name),
            Refusal::NoSuchTable(name) => Arg::Name(*name),
            Refusal::NoSuchColumn(name) => Arg::Name(*name),
            Refusal::DuplicateColumn(arg) => *arg,
            Refusal::TypeMismatch(arg) => *arg,
            Refusal::TooWide(arg) => *arg,
            Refusal::OutOfRange(arg) => *arg,
            Refusal::NullNotAllowed(number) => Arg::Number(*number),
            Refusal::WrongCount(number) => Arg::Number(*number),
            Refusal::DuplicateKey(number) => Arg::Number(*number),
            Refusal::NotIncreasing(name) => Arg::Name(*name),
            Refusal::MaxvalueNotLast(name) => Arg::Name(*name),
            Refusal::ValueTwice(name) => Arg::Name(*name),
            Refusal::DuplicatePartition(name) => Arg::Name(*name),
            Refusal::TooManyPartitions(number) => Arg::Number(*number),
            Refusal::KeyNeedsColumns(arg) => *arg,
            Refusal::BadFunction(name) => Arg::Name(*name),
            Refusal::WrongValues(name) => Arg::Name(*name),
            Refusal::NoPartitions(name) => Arg::Name(*name),
            Refusal::SubpartitionsDiffer(name) => Arg::Name(*name),
            Refusal::NoPartition(number) => Arg::Number(*number),
            Refusal::UnknownPartition(name) => Arg::Name(*name),
            Refusal::NotInGivenSet(number) => Arg::Number(*number),
            Refusal::NotPartitioned(name) => Arg::Name(*name),
            Refusal::OnlyRangeList(name) => Arg::Name(*name),
            Refusal::OnlyHashKey(name) => Arg::Name(*name),
            Refusal::DropAll(name) => Arg::Name(*name),
            Refusal::NotAdjacent(name) => Arg::Name(*name),
            Refusal::RangeChanged(name) => Arg::Name(*name),
            Refusal::CoalesceZero(name) => Arg::Name(*name),
            Refusal::OtherIsPartitioned(name) => Arg::Name(*name),
            Refusal::TablesDiffer(name) => Arg::Name(*name),
            Refusal::RowNotInPartition(number) => Arg::Number(*number),
            Refusal::UseSubpartition(name) => Arg::Name(*name),
            Refusal::SerialsUsed(number) => Arg::Number(*number),
        }
    }
}

/// Prefixes and the mark of datum comments.
pub const ROWS: &str = r##"'a⇒prefix 0-1, atom 1-2
`a⇒prefix 0-1, atom 1-2
,a⇒prefix 0-1, atom 1-2
,@a⇒prefix 0-2, atom 2-3
#'a⇒prefix 0-2, atom 2-3
#`a⇒prefix 0-2, atom 2-3
#,a⇒prefix 0-2, atom 2-3
#,@a⇒prefix 0-3, atom 3-4
#&a⇒prefix 0-2, atom 2-3
#1=a⇒prefix 0-3, atom 3-4
#12345678=#12345678#⇒prefix 0-10, atom 10-20
, @a⇒prefix 0-1, atom 2-4
#, @⇒prefix 0-2, atom 3-4
,,@@a⇒prefix 0-1, prefix 1-3, atom 3-5
#,,@a⇒prefix 0-2, prefix 2-4, atom 4-5
'`,#'a⇒prefix 0-1, prefix 1-2, prefix 2-3, prefix 3-5, atom 5-6
#;a⇒skip 0-2, atom 2-3
#;#;a b⇒skip 0-2, skip 2-4, atom 4-5, atom 6-7
a,b⇒atom 0-1, prefix 1-2, atom 2-3
a'b⇒atom 0-1, prefix 1-2, atom 2-3
#1='(⇒prefix 0-3, prefix 3-4, ( 4-5
#123456789=a⇒BadHash at 0
#=a⇒BadHash at 0
##;a⇒BadHash at 0
#&|a⇒OpenBar at 2
#1=|a⇒OpenBar at 3
#;|⇒OpenBar at 2
'#⇒BadHash at 1"##;

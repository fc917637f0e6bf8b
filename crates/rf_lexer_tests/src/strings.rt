/// Strings, byte strings, regular expressions and here strings.
pub const ROWS: &str = r##""a"⇒string 0-3
""⇒string 0-2
"\""⇒string 0-4
"\\"a⇒string 0-4, atom 4-5
"a⏎⏎b"⇒string 0-6
"a␍⏎b"⇒string 0-6
"²³¹␍"⇒string 0-11
"a""b"⇒string 0-3, string 3-6
a"b"c⇒atom 0-1, string 1-4, atom 4-5
#"a"⇒string 0-4
#rx"a"⇒string 0-6
#px"a\"b"⇒string 0-9
#rx#"a"⇒string 0-7
#px#"a"⇒string 0-7
"λ" a⇒string 0-4, atom 5-6
"a⇒OpenString at 0
"⇒OpenString at 0
"\"⇒OpenString at 0
#rx"a⇒OpenString at 0
#px#"⇒OpenString at 0
#"\"⇒OpenString at 0
λ "⇒OpenString at 3
"a""⇒OpenString at 3
#py"a"⇒BadHash at 0
#px#a"b"⇒BadHash at 0
#rx ""⇒BadHash at 0
#px##"a"⇒BadHash at 0
#<<E⏎ab⏎E⇒here 0-9
#<<E⏎E⏎a⇒here 0-6, atom 7-8
#<<⏎⏎a⇒here 0-4, atom 5-6
#<<⏎a⏎⏎⏎b⇒here 0-6, atom 8-9 blanks 1
#<<E⏎EE⏎ E⏎E⏎⇒here 0-12
#<< E⏎ E⏎⏎;⇒here 0-8, line 10-11 blanks 1 own
#<<E⏎a²E⏎E⏎⇒here 0-12
#<<é⏎é⇒here 0-8
#<<E⏎E⏎␍⇒here 0-6
a #<<|"⏎;⏎|"⇒atom 0-1, here 2-12
#<<E⇒OpenHere at 0
#<<⇒OpenHere at 0
#<<E⏎⇒OpenHere at 0
#<<E⏎ab⏎EE⏎e⇒OpenHere at 0
#<<⏎a⇒OpenHere at 0
#<<E␍⏎E⇒StrayLineEnd at 4
#<<E⏎ab␍⏎E⏎⇒StrayLineEnd at 7
#<<E⏎E␍⏎⇒StrayLineEnd at 6
#<<E⏎a⏎b␍⇒StrayLineEnd at 8
a #<<␍⇒StrayLineEnd at 5
#<<E⏎EE⏎␍␍⇒StrayLineEnd at 8"##;

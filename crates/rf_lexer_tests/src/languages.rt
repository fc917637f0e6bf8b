/// Language lines.
pub const ROWS: &str = r##"#lang racket/base⏎a⇒lang 0-17, atom 18-19
#lang racket⇒lang 0-12
#lang a+b-c_d/e9⏎⇒lang 0-16
#lang s-exp "a b"⏎⇒lang 0-17
#lang racket x⏎⇒lang 0-14
#lang racket ⇥ .x.y/z ⏎⇒lang 0-21
#lang racket ;x⇒lang 0-12, line 13-15
#lang racket x;y⇒lang 0-14, line 14-16
#lang a "b";⏎c⇒lang 0-11, line 11-12, atom 13-14
#lang racket␍⏎a⇒lang 0-12, atom 14-15
#lang racket ⇥⏎⏎a⇒lang 0-12, atom 16-17 blanks 1
#lang a ""⏎⇒lang 0-10
#lang scribble⇒lang 0-14
#lang datalogs⇒lang 0-14
#lang rhombuses⇒lang 0-15
; c⏎#lang racket⇒line 0-3 own, lang 4-16
#||#⏎⏎#lang racket⇒block 0-4, lang 6-18 blanks 1
⏎ #!/x⏎#||##lang a⏎⇒line 2-6 own, block 7-11, lang 11-18
⁰#lang racket⇒atom 0-8, atom 9-15
x#lang racket⇒atom 0-6, atom 7-13
#lang racket x y⇒LanguageLine at 0
#lang racket;x⇒LanguageLine at 0
#lang⇒LanguageLine at 0
#lang ⇒LanguageLine at 0
#language⇒LanguageLine at 0
#lang  racket⇒LanguageLine at 0
#lang⇥racket⇒LanguageLine at 0
#lang /a⇒LanguageLine at 0
#lang a/⇒LanguageLine at 0
#lang racket(⇒LanguageLine at 0
#lang a "b⇒LanguageLine at 0
#lang a "b\"⇒LanguageLine at 0
#lang a"b"⇒LanguageLine at 0
#lang a.b⇒LanguageLine at 0
#lang é⇒LanguageLine at 0
#lang|a⇒LanguageLine at 0
#lang a #|b|#⇒LanguageLine at 0
a #lang racket⇒LanguageLine at 2
#lang a⏎#lang b⇒LanguageLine at 8
'#lang a⇒LanguageLine at 1
a #lang scribble/base⇒LanguageLine at 2
a #lang b␍c⇒LanguageLine at 2
#;#lang a⇒LanguageLine at 2
#lang at-exp racket⇒LanguageReader at 0
#lang datalog⇒LanguageReader at 0
#lang rhombus⇒LanguageReader at 0
#lang rhombus/x ␍⇒LanguageReader at 0
#lang scribble/base⇒LanguageReader at 0
;c⏎#lang scribble/x⇒LanguageReader at 3
#lang racket␍a⇒StrayLineEnd at 12
#lang racket¹⇒StrayLineEnd at 12
#lang racket x ²⇒StrayLineEnd at 15
#lang a "b" ⇥³⇒StrayLineEnd at 13
#lang a ;␍⇒StrayLineEnd at 9
#lang a ␍␍⏎⇒StrayLineEnd at 8
#lang a "b␍"⇒LanguageLine at 0"##;

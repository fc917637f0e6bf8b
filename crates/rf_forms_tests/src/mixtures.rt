/// Lists of many kinds at once.
pub const ROWS: &str =
    r##"(f (g a b) ; c⏎ '(h "⏎" z) #:k (i j))⇒RLRLLL⇒(f (g a⏎      b) ; c⏎   '(h⏎     "⏎"⏎     z)⏎   #:k (i⏎        j))⏎
(f (g a b) ; c⏎ '(h "⏎" z) #:k (i j))⇒LRRLRL⇒(f⏎ (g a b) ; c⏎ '(h⏎   "⏎"⏎   z)⏎ #:k (i j))⏎
(f (g a b) ; c⏎ '(h "⏎" z) #:k (i j))⇒RLLRRL⇒unfit"##;
